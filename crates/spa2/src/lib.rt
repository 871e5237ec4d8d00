// The planner: SPA2, which places tasks on processors and cuts those that do not fit whole.
#![tactic(auto)]

pub mod load;
mod piece;
pub mod planning;
mod state;
pub mod theta;
mod windows;
