// A plan that has passed the check.
ghost use Rattle.std.specs.Prelude.{◌≡◌, true};
ghost use Rattle.plan.specs.Checks.{numbers_pass};
ghost use Rattle.parts.specs.Parts.{parts_of};

use parts::lists::PartList;
use tasks::set::TaskSet;

// A plan that has passed the check, with all that it was checked under. Only the check makes one, but for the smallest. Its fields stand
// once more in `Carried`, which has not their law: contracts name them of a checked plan, and a value inside would hide the law from them.
#[derive(Drop)]
pub struct CheckedPlan<O, R> {
    pub(crate) set: TaskSet,
    pub(crate) processors: usize,
    pub(crate) list: PartList,
    pub(crate) order: O,
    pub(crate) rule: R,
    ghost passed: { numbers_pass set processors (parts_of list) ≡ true },
}

// What a checked plan carried. (Set, processors and list stay fields of their own:
// callers read them here, and a struct that holds the three would change how.)
#[derive(Drop)]
pub struct Carried<O, R> {
    pub set: TaskSet,
    pub processors: usize,
    pub list: PartList,
    pub order: O,
    pub rule: R,
}

pub mod plans;
