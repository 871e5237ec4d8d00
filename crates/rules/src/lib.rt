// The arrival rules that are delivered: spaced releases, token buckets, and two rules joined; and the rule that any regulators of
// single tasks make.
#![tactic(auto)]

pub mod both;
pub mod bucket;
pub mod per_task;
pub mod regulator;
pub mod spaced;
mod tokens;
