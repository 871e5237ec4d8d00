// A plan whose numbers have passed, before it is judged.
ghost use Rattle.std.specs.Prelude.{◌≡◌, true};
ghost use Rattle.parts.specs.Parts.{parts_of};
ghost use Rattle.plan.specs.Checks.{numbers_pass};

use parts::lists::PartList;
use tasks::set::TaskSet;

// A plan whose numbers have passed, with all that it is judged under. (It borrows what `Carried` owns: no struct holds set,
// processors and list for both, since callers read those fields of `Carried`.)
#[derive(Drop)]
pub(crate) struct Candidate<'a, O, R> {
    set: &'a TaskSet,
    processors: usize,
    list: &'a PartList,
    order: &'a O,
    rule: &'a R,
    ghost passed: { numbers_pass set.now processors (parts_of list.now) ≡ true },
}

pub(crate) mod judging;
