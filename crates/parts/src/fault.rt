// The faults of a plan.
ghost use Rattle.std.specs.Prelude.{◌≡◌, Some};
ghost use Rattle.sheet.specs.Faults.{fault_line};
ghost use Rattle.parts.specs.Faults.{shown};
ghost use Rattle.parts.specs.declared.fault.PlanFault.TheVariants.{Set};

use sheet::fault::{Layer, Refusal};
use std::fmt;
use tasks::fault::SetFault;

// What is wrong with a plan (layer K), or with the task set under it.
#[derive(Clone, Copy, PartialEq, Eq, Debug)]
pub enum PlanFault {
    // the fault of the task set, whole
    Set(SetFault),
    // a cost, a window or a count outside its limits; a count has the place 0
    OffScale { part: usize },
    // a task or a processor that there is not
    Stranger { part: usize },
    // the task already has a part on that processor
    Twin { part: usize },
    // the costs of a task's parts do not add up to its cost
    Miscount { task: usize },
    // the task may be released again before its last window has ended
    Overlap { task: usize },
    // a part without a response time in its window
    Late { part: usize },
    // no processor can take what is left of the task
    Unplaced { task: usize },
    // the planner finds no window of 1 or more for the part
    Squeezed { part: usize },
    // the buffer is too short, and this many entries are needed
    Cramped { needed: usize },
}

// By hand, since a derived From or Display promises nothing of what it makes or writes.
impl From<SetFault> for PlanFault {
    ghost from_gives = { λ s r. r ≡ Set s };

    fn from(s: SetFault) -> PlanFault {
        PlanFault::Set(s)
    }
}

impl PlanFault {
    // Layer, number and place of the fault.
    pub fn refusal(&self) -> Refusal
        ensures { result ≡ shown self.now }
    {
        let (number, place) = match *self {
            PlanFault::Set(s) => return s.refusal(),
            PlanFault::OffScale { part } => (3, part),
            PlanFault::Stranger { part } => (6, part),
            PlanFault::Twin { part } => (7, part),
            PlanFault::Miscount { task } => (8, task),
            PlanFault::Overlap { task } => (9, task),
            PlanFault::Late { part } => (10, part),
            PlanFault::Unplaced { task } => (11, task),
            PlanFault::Squeezed { part } => (12, part),
            PlanFault::Cramped { needed } => (17, needed),
        };
        Refusal::new(Layer::Plan, number, place)
    }
}

impl fmt::Display for PlanFault {
    ghost output = { λ f. Some (fault_line (shown f)) };

    fn fmt<W: fmt::Write>(&self, f: &mut fmt::Formatter<W>) -> fmt::Result {
        self.refusal().fmt(f)
    }
}
