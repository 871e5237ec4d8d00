// The parts of a plan, and a plan that has not been checked.
ghost use Rattle.std.specs.Prelude.{◌≡◌, ◌≤◌};

use crate::fixed::FixedList;
use schedule::Part;

// The most parts of a plan, and the most processors that it is for.
pub const MAX_PARTS: usize = 64;

pub const MAX_PROCESSORS: usize = 8;

// Up to 64 parts, in the order in which they were listed.
pub type PartList = FixedList<Part, MAX_PARTS>;

// A plan that has not been checked: 1 to 64 parts, whose numbers may be off every scale. It cannot be let go: the check uses it
// up, or it is given up.
pub struct Proposal {
    list: PartList,
    ghost some: { 1 ≤ list.count },
}

pub mod methods;
