// A plan laid out in time.
ghost use Rattle.std.specs.Prelude.{◌≡◌, ℕ, ◌<◌, true, length, None, slice_index, slice_index_or};
ghost use Rattle.plan.specs.Checks.{numbers_pass};
ghost use Rattle.parts.specs.Parts.{parts_of};
ghost use Rattle.machine.specs.Placing.{placed_at, unplaced, next_part};

use crate::placed::PlacedPart;
use parts::lists::PartList;
use tasks::set::TaskSet;

// What a machine reads at each tick, made once at the start: where each part stands in time, the first part of each task, the
// rank of each task and the task of each rank. `first` and `ranks` both go by the task's number, and yet are no array of structs:
// each is made by a pass of its own, and no call reads both. `by_rank` goes by rank, and holds bytes, as a tick answers them. `placed`
// goes with `list`, which is kept as it came, to be handed back.
#[derive(Clone, Copy)]
pub struct Layout {
    pub(crate) set: TaskSet,
    pub(crate) processors: usize,
    pub(crate) list: PartList,
    pub(crate) placed: [PlacedPart; 64],
    pub(crate) first: [Option<usize>; 32],
    pub(crate) ranks: [usize; 32],
    pub(crate) by_rank: [u8; 32],
    ghost passed: { numbers_pass set processors (parts_of list) ≡ true },
    ghost all_placed: { length placed ≡ 64 },
    ghost all_first: { length first ≡ 32 },
    ghost all_ranks: { length ranks ≡ 32 },
    ghost all_ranked: { length by_rank ≡ 32 },
    ghost places: { (k : ℕ) → k < length (parts_of list) → slice_index_or placed k unplaced ≡ placed_at (parts_of list) k },
    ghost firsts: { (i : ℕ) → i < 32 → slice_index_or first i None ≡ next_part (parts_of list) i 0 },
    ghost low: { (i : ℕ) → i < set.count → slice_index ranks i < 32 },
    ghost apart: { (i : ℕ) → i < set.count → slice_index by_rank (slice_index ranks i) ≡ i },
}

mod making;
mod ranks;
mod tables;
