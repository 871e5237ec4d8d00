// What can be done with the parts of a plan.
ghost use Rattle.std.specs.Prelude.{◌≡◌, ◌<◌, ◌≤◌, [], ◌∷◌, ◌++◌, length, is_ok, IfErr, if◌then◌else◌, nat_lt};
ghost use Rattle.parts.specs.Parts.{parts_of, with_window, Proposed, plan_of};

use crate::fault::PlanFault;
use crate::fixed::FixedList;
use crate::lists::{MAX_PARTS, PartList, Proposal};
use schedule::Part;

impl FixedList<Part, MAX_PARTS> {
    // No parts.
    pub fn empty() -> PartList
        ensures { parts_of result ≡ [] }
    {
        FixedList::filled(Part {
            task: 0,
            processor: 0,
            cost: 0,
            window: 0,
        })
    }

    // One part.
    pub fn of_one(part: Part) -> PartList
        ensures { parts_of result ≡ part ∷ [] }
    {
        let mut list = FixedList::filled(part);
        list.push(part).unwrap();
        list
    }

    // Gives the part at `index` another window; past the last part, nothing.
    pub fn set_window(&mut self, index: usize, window: u32)
        ensures { parts_of self.new ≡ with_window (parts_of self.old) index window }
    {
        if let Some(part) = self.as_slice().get(index) {
            let part = Part { window, ..*part };
            self.replace(index, part);
        }
    }
}

impl Proposal {
    // The parts as a plan to be checked; a plan of none is refused.
    pub fn new(list: PartList) -> Result<Proposal, PlanFault>
        ensures { Proposed (parts_of list) result }
    {
        if list.as_slice().is_empty() {
            return Err(PlanFault::OffScale { part: 0 });
        }
        Ok(Proposal { list })
    }

    // The parts of any slice as a plan to be checked; a count outside 1 to 64 is refused.
    pub fn from_slice(parts: &[Part]) -> Result<Proposal, PlanFault>
        ensures { Proposed parts.now result }
    {
        let mut list = PartList::empty();
        for part in parts {
            list.push(*part)
                .map_err(|_| PlanFault::OffScale { part: 0 })?;
        }
        Proposal::new(list)
    }

    // The parts in their order.
    pub fn parts(&self) -> &[Part]
        ensures { result.now ≡ plan_of self.now }
    {
        self.list.as_slice()
    }

    // A copy of the list of its parts.
    pub fn to_list(&self) -> PartList
        ensures { parts_of result ≡ plan_of self.now }
    {
        let Proposal { list } = *self;
        list
    }

    // Gives the plan up, and hands its parts back.
    pub fn give_up(self) -> PartList
        ensures { parts_of result ≡ plan_of self }
    {
        let Proposal { list } = self;
        list
    }
}
