// The tables of a layout, each made in one pass over the parts.
ghost use Rattle.std.specs.Prelude.{◌≡◌, ℕ, ◌<◌, length, None, slice_index_or};
ghost use Rattle.machine.specs.Placing.{placed_at, unlinked_at, unplaced, next_part, Runnable};

use crate::placed::PlacedPart;
use parts::lists::MAX_PARTS;
use schedule::Part;
use tasks::set::MAX_TASKS;

// The parts placed in time, each by itself.
pub(crate) fn placed_of(parts: &[Part]) -> [PlacedPart; MAX_PARTS]
    requires { Runnable parts.now }
    ensures whole { length result ≡ 64 }
    ensures value { (k : ℕ) → k < length parts.now → slice_index_or result k unplaced ≡ unlinked_at parts.now k }
{
    let unplaced = PlacedPart {
        processor: 0,
        cost: 0,
        begin: 0,
        end: 0,
        next: None,
    };
    let mut spans = [0u32; MAX_TASKS];
    let mut placed = [unplaced; MAX_PARTS];
    // `placed` by number: after a `zip` with `iter_mut` a proof knows no element
    for (k, part) in parts.iter().enumerate() {
        let task = usize::from(part.task);
        let begin = spans[task];
        let end = begin + part.window;
        spans[task] = end;
        placed[k] = PlacedPart {
            processor: part.processor,
            cost: part.cost,
            begin,
            end,
            next: None,
        };
    }
    placed
}

// Links each part to the next one of its task, and gives the first part of each task.
pub(crate) fn link_parts(
    parts: &[Part],
    placed: &mut [PlacedPart; MAX_PARTS],
) -> [Option<usize>; MAX_TASKS]
    requires runnable { Runnable parts.now }
    requires whole { length placed.old ≡ 64 }
    requires unlinked { (k : ℕ) → k < length parts.now → slice_index_or placed.old k unplaced ≡ unlinked_at parts.now k }
    ensures whole { (length placed.new ≡ 64) × (length result ≡ 32) }
    ensures linked { (k : ℕ) → k < length parts.now → slice_index_or placed.new k unplaced ≡ placed_at parts.now k }
    ensures first { (i : ℕ) → i < 32 → slice_index_or result i None ≡ next_part parts.now i 0 }
{
    let mut first = [None; MAX_TASKS];
    // by number, as above; a link is the number of a part
    for (k, part) in parts.iter().enumerate().rev() {
        let task = usize::from(part.task);
        placed[k].next = first[task];
        first[task] = Some(k);
    }
    first
}
