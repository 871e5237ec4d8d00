// What the planner knows while it places pieces.
ghost use Rattle.std.specs.Prelude.{◌≡◌, ℕ, ◌<◌, ◌≤◌, length, slice_index};
ghost use Rattle.front.specs.Fronts.{listed, room};

use crate::piece::Piece;
use front::lists::FrontList;
use parts::lists::PartList;

// Which pieces a processor may be chosen for: any; those that no open processor is left for, since a heavy task was placed on
// it beforehand; none, since a piece was cut there.
#[derive(Clone, Copy, PartialEq, Eq)]
pub enum Standing {
    Open,
    Reserved,
    Full,
}

// A processor: the sum of the loads placed on it, and its standing.
#[derive(Clone, Copy)]
pub struct Processor {
    pub load: u64,
    pub standing: Standing,
}

// The processor that a piece goes to: an open one, or the one taken from the front of the reserve.
#[derive(Clone, Copy)]
pub enum Choice {
    Normal(usize),
    Spare(usize),
}

// The processors, the pieces to be placed, the numbers of the processors in reserve, and the parts placed so far.
// (The task set goes with each call: a field would need a clause in every method that it stays.)
#[derive(Drop)]
pub struct Planner<'a> {
    processors: &'a mut [Processor],
    pieces: FrontList<'a, Piece>,
    reserve: FrontList<'a, usize>,
    parts: PartList,
    ghost few: { length processors.now ≤ 8 },
    ghost spacious: { room pieces ≡ 32 },
    ghost roomy: { room reserve ≡ 8 },
    ghost known: { (k : ℕ) → k < length (listed reserve) → slice_index (listed reserve) k < length processors.now },
}

pub mod beforehand;
pub mod filling;
pub mod placing;
pub mod seats;
