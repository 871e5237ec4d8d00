// Calls given as a list, and what came of each.
#![tactic(auto)]

use machine::fault::MachineFault;
use plan::checked::CheckedPlan;

// A call of a machine. A tick brings the length of its buffer.
#[derive(Clone, Copy)]
pub enum Call {
    Release { task: usize },
    Finish { task: usize },
    Tick { room: usize },
}

// What a call did that was not refused: of a tick the buffer that it was lent, whole, since each outcome has one fixed length. The bytes
// past the plan's processors are 255, as a tick leaves them.
#[derive(Clone, Copy, PartialEq, Eq, Debug)]
pub enum Done {
    Taken,
    Ran { bytes: [u8; 8] },
}

// What came of a call: what it did, or what the machine refused it for.
pub type Outcome = Result<Done, MachineFault>;

// Why a plan was not driven, and the place for a checked plan as it was.
#[derive(Drop)]
pub struct Undriven<O, R> {
    pub fault: MachineFault,
    pub place: CheckedPlan<O, R>,
}

mod promise;
mod runs;

pub use promise::drive;
