// Task sets, and the two interfaces over them: priority orders and arrival rules.
#![tactic(auto)]

pub mod arrival;
pub mod fault;
pub mod listed;
pub mod numbers;
pub mod order;
pub mod ranking;
pub mod rate_monotonic;
pub mod set;
