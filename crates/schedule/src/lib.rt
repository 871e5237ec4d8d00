#![tactic(auto)]

ghost use Rattle.schedule.specs.Promise.{Sound, Exact};
ghost use Rattle.schedule.specs.Examples.{Worked};

// A part of a plan: the task that it is cut from, the processor that it runs on, the ticks that it runs, and the ticks that it may take for them.
#[derive(Clone, Copy, PartialEq, Eq, Debug)]
pub struct Part {
    pub task: u8,
    pub processor: u8,
    pub cost: u32,
    pub window: u32,
}

// The theorems about the tick rule stand on the contracts of functions that compute nothing: a statement of specs/ has to be
// proved only where a contract names it.

// A plan that passes every check keeps its promise: whatever is released, finished and ticked, in whatever order, no part is late,
// parts run only in their windows and in their order, no task runs on two processors at once, and a job runs its cost and no more.
pub fn promise_kept() -> u8
    ensures { Sound }
{
    0
}

// The lateness check is exact where the curves are subadditive: a plan that passes the other checks has a part without a response
// time exactly when some calls make a part late.
pub fn verdict_exact() -> u8
    ensures { Exact }
{
    0
}

// The worked examples: two tasks on one processor that are in time, and with a shorter window late; and a task cut over two processors.
pub fn examples_hold() -> u8
    ensures { Worked }
{
    0
}
