// The parts of a plan, a plan that has not been checked, and what can be wrong with one.
#![tactic(auto)]

pub mod fault;
pub mod fixed;
pub mod lists;
