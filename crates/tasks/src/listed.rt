// The order of a list of grades.
ghost use Rattle.std.specs.Prelude.{◌≡◌, length};
ghost use Rattle.tasks.specs.Orders.{by_grade};
ghost use Rattle.std.proofs.Common.{rules};

use crate::numbers::task_number;
use crate::order::{PriorityOrder, TaskKey};
use crate::set::MAX_TASKS;

// A grade for each task number: the smaller grade goes first, of equal ones the smaller number.
#[derive(Clone, Copy)]
pub struct Listed {
    grades: [u8; MAX_TASKS],
    ghost wide: { length grades ≡ 32 },
}

impl Listed {
    pub fn new(grades: [u8; MAX_TASKS]) -> Listed
        ensures { result.grades ≡ grades }
    {
        Listed { grades }
    }
}

impl PriorityOrder for Listed {
    ghost before = { λ o a b. by_grade o.grades a b };

    ghost irreflexive = { Prim.search rules };

    ghost connected = { Prim.search rules };

    ghost asymmetric = { Prim.search rules };

    ghost transitive = { Prim.search rules };

    fn goes_before(&self, first: TaskKey, second: TaskKey) -> bool {
        let a = task_number(first.number);
        let b = task_number(second.number);
        (self.grades[a], a) < (self.grades[b], b)
    }
}
