// The machine that runs a checked plan, tick by tick.
#![tactic(auto)]

ghost use Rattle.std.specs.Prelude.{◌^◌, ◌≤◌};

use crate::dispatcher::Dispatcher;

// A machine that runs a plan: the plan laid out in time with its jobs, the order and the arrival rule that it was checked under,
// and the clock. The type has no bounds, so that all may hold, stop and drop a machine; what is said of its order and its rule is
// said by the contracts of its calls.
#[derive(Drop)]
pub struct Machine<O, R> {
    dispatcher: Dispatcher,
    order: O,
    rule: R,
    clock: u64,
    ghost early: { clock ≤ 2 ^ 40 },
}

pub mod calls;
mod dispatcher;
pub mod fault;
mod jobs;
mod layout;
mod placed;
pub mod questions;
mod ready;
#[cfg(test)]
mod tests;
