// Response times: how long a part may take from its begin, at the worst.
ghost use Rattle.std.specs.Prelude.{◌≡◌, ℕ, ◌≤◌};
ghost use Rattle.schedule.specs.Layout.{demand};
ghost use Rattle.tasks.specs.Arrivals.{as_long};
ghost use Rattle.parts.specs.Parts.{parts_of};
ghost use Rattle.plan.specs.Responses.{response_within, share, Least};
ghost use Rattle.plan.specs.Systems.{system};
ghost use Rattle.plan.specs.Workloads.{system_of};

use parts::lists::PartList;
use schedule::Part;
use tasks::arrival::ArrivalRule;
use tasks::order::PriorityOrder;
use tasks::set::TaskSet;

// The longest stretch in which a response time is looked for, the longest that the curve's question tells apart.
pub const LONGEST: u32 = 1_000_000;

// A part among parts: what it and all that can go before it may ask of its processor.
#[derive(Drop)]
struct Workload<'a, O, R> {
    set: &'a TaskSet,
    parts: &'a PartList,
    part: Part,
    order: &'a O,
    rule: &'a R,
}

impl<'a, O: PriorityOrder, R: ArrivalRule> Workload<'a, O, R> {
    // What another part may need of the part's processor, ahead of it, in `length` successive ticks.
    fn interference(&self, other: Part, length: u64) -> u64
        requires { length ≤ 1000000 }
        ensures value { result ≡ share (system_of self.now O.before R.curve) self.now.part length other }
        ensures bound { result ≤ 4294967296000000 }
    {
        let task = usize::from(other.task);
        if other.processor != self.part.processor {
            return 0;
        }
        if !self.order.goes_before(
            self.set.key(task),
            self.set.key(usize::from(self.part.task)),
        ) {
            return 0;
        }
        self.rule.curve_at(task, length) * u64::from(other.cost)
    }

    // What the part and all that can go before it on its processor may need in `length` successive ticks.
    fn needed(&self, length: u64) -> u64
        requires { length ≤ 1000000 }
        ensures { result ≡ demand (system_of self.now O.before R.curve) self.now.part length }
    {
        let ahead: u64 = self
            .parts
            .as_slice()
            .iter()
            .map(|other| self.interference(*other, length))
            .sum();
        u64::from(self.part.cost) + ahead
    }
}

// The least number of ticks, from 1 up to the limit, that suffice for the part and for all that can go before it on its
// processor among the parts; none where no such number does. A limit above 1,000,000 is read as 1,000,000. The windows of the
// parts do not matter.
pub fn response_time<O: PriorityOrder, R: ArrivalRule>(
    set: &TaskSet,
    parts: &PartList,
    part: Part,
    limit: u32,
    order: &O,
    rule: &R,
) -> Option<u32>
    ensures value { (m : ℕ) → result ≡ response_within (system set.now m (parts_of parts.now) (O.before order.now) (R.curve rule.now)) part (as_long limit) }
    ensures least { (m : ℕ) → Least (system set.now m (parts_of parts.now) (O.before order.now) (R.curve rule.now)) part (as_long limit) result }
{
    let workload = Workload {
        set,
        parts,
        part,
        order,
        rule,
    };
    let longest = u64::from(limit.min(LONGEST));
    let mut length = 1;
    // a `while`: each length that is tried is what the one before it needs, up to one that suffices for itself
    while length <= longest {
        let sum = workload.needed(length);
        if sum <= length {
            // `as`: no length up to the limit is too long for it, and that is proved
            return Some(length as u32);
        }
        length = sum;
    }
    None
}
