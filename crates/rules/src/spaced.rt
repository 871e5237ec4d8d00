// Spaced arrivals: the releases of a task are at least its period apart.
ghost use Rattle.std.specs.Prelude.{◌≤◌};

use crate::per_task::PerTask;

// The period by which the releases of a task are apart, and how many ticks it has to wait until it is open again.
#[derive(Clone, Copy)]
pub struct Gap {
    period: u32,
    wait: u32,
    ghost lasting: { 1 ≤ period },
}

// A gap between the releases of each task.
pub type Spaced = PerTask<Gap>;

pub mod rule;
