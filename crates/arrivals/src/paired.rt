// Releases in pairs: at most one in a tick, and two in seven.
ghost use Rattle.std.specs.Prelude.{◌+◌, ◌<◌, ◌≤◌};

use rules::per_task::PerTask;

// Two places of one task, each taken by a release for seven ticks: how many ticks until they are free, the sooner and the later.
#[derive(Clone, Copy)]
pub struct Pair {
    sooner: u32,
    later: u32,
    ghost sorted: { sooner < later },
    ghost close: { later < sooner + 7 },
    ghost short: { later ≤ 7 },
}

// Two places for each task.
pub type Paired = PerTask<Pair>;

pub mod rule;
