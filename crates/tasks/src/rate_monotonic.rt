// The rate-monotonic order.
ghost use Rattle.tasks.specs.Orders.{by_period};
ghost use Rattle.std.proofs.Common.{rules};

use crate::numbers::task_number;
use crate::order::{PriorityOrder, TaskKey};

// The task with the smaller period goes first, of equal ones the one with the smaller number.
#[derive(Clone, Copy)]
pub struct RateMonotonic;

impl PriorityOrder for RateMonotonic {
    ghost before = { λ _ a b. by_period a b };

    ghost irreflexive = { Prim.search rules };

    ghost connected = { Prim.search rules };

    ghost asymmetric = { Prim.search rules };

    ghost transitive = { Prim.search rules };

    fn goes_before(&self, first: TaskKey, second: TaskKey) -> bool {
        let a = (first.period, task_number(first.number));
        let b = (second.period, task_number(second.number));
        a < b
    }
}
