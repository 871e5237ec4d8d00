// Plans: how tasks are cut into parts, and how long each part may take to run.
#![tactic(auto)]

mod candidate;
pub mod check;
pub mod checked;
pub mod numbers;
pub mod response;
