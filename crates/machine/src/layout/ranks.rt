// The ranks of the tasks of a set.
ghost use Rattle.std.specs.Prelude.{◌≡◌, ℕ, ◌<◌, ◌≤◌, length, slice_index};
ghost use Rattle.tasks.specs.Ranks.{rank_in};
ghost use Rattle.tasks.specs.Sets.{count_of};

use tasks::order::PriorityOrder;
use tasks::ranking::rank;
use tasks::set::TaskSet;

// The rank of each task, and the task of each rank: one table goes by task, and the other by rank.
#[derive(Clone, Copy)]
pub(crate) struct Ranks {
    pub(crate) ranks: [usize; 32],
    pub(crate) by_rank: [u8; 32],
}

// The ranks of all tasks of the set.
pub(crate) fn ranks_of<O: PriorityOrder>(set: &TaskSet, order: &O) -> Ranks
    ensures whole { (length result.ranks ≡ 32) × (length result.by_rank ≡ 32) }
    ensures value { (i : ℕ) → i < count_of set.now → slice_index result.ranks i ≡ rank_in (O.before order.now) set.now i }
    ensures low { (i : ℕ) → i < count_of set.now → slice_index result.ranks i < 32 }
    ensures apart { (i : ℕ) → i < count_of set.now → slice_index result.by_rank (slice_index result.ranks i) ≡ i }
{
    let mut ranks = [0usize; 32];
    let mut by_rank = [0u8; 32];
    // by number, since that is what `rank` is asked for and what `by_rank` holds
    for task in 0..set.count() {
        let own = rank(set, order, task);
        ranks[task] = own;
        // `as` is proved to fit, since a set has at most 32 tasks; it is plainer than a TryFrom that is unwrapped
        by_rank[own] = task as u8;
    }
    Ranks { ranks, by_rank }
}
