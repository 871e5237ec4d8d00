// Lists over lent memory.
#![tactic(auto)]

pub mod lists;
