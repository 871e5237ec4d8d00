// The lowest layer of a sheet: its bytes, and what can be wrong with them.
#![tactic(auto)]

pub mod cursor;
pub mod fault;
pub mod symbol;
