// The ranks of a set's tasks.
ghost use Rattle.std.specs.Prelude.{◌≡◌};
ghost use Rattle.tasks.specs.Ranks.{rank_in, Ranked};

use crate::order::PriorityOrder;
use crate::set::TaskSet;

// How many of the set's tasks go before the task. Under every order ranks tell which task goes first.
pub fn rank<O: PriorityOrder>(set: &TaskSet, order: &O, task: usize) -> usize
    ensures value { result ≡ rank_in (O.before order.now) set.now task }
    ensures ranked { Ranked (O.before order.now) set.now }
{
    let key = set.key(task);
    // a sum of ones: `filter` with `count` takes two to five times as many steps here
    (0..set.count())
        .map(|other| usize::from(order.goes_before(set.key(other), key)))
        .sum()
}
