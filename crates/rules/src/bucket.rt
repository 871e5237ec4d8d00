// Token buckets: the releases of a task come in bursts of limited size.
use crate::per_task::PerTask;
use crate::tokens::Tokens;

// A token bucket for each task number.
pub type Bucket = PerTask<Tokens>;

pub mod rule;
