// Token buckets for all tasks.
ghost use Rattle.std.specs.Prelude.{◌≡◌, None, length, slice_index_or};
ghost use Rattle.tasks.specs.Arrivals.{AllSubadditive};
ghost use Rattle.rules.specs.Buckets.{Bucket, Bucketed, FullOf, bucket_curve, bucket_fault, off_limits};
ghost use Rattle.rules.specs.Pacing.{AllPaced};
ghost use Rattle.tasks.specs.Searches.{first_where};

use crate::bucket::Bucket;
use crate::per_task::PerTask;
use crate::tokens::{MAX_TOKENS, Tokens};
use std::array;
use tasks::fault::SetFault;
use tasks::set::methods::{is_miscounted, is_on_scale};

// The first task whose size or refill time is outside its limits.
fn first_off_limits(sizes: &[u32], refills: &[u32]) -> Option<usize>
    requires { length refills.now ≡ length sizes.now }
    ensures { result ≡ first_where (off_limits sizes.now refills.now) (length sizes.now) }
{
    sizes.iter().zip(refills).position(|(size, refill)| {
        !(1..=MAX_TOKENS).contains(size) || !is_on_scale(*refill)
    })
}

// The full bucket of a task, whose size and refill time are 1 past the given ones. An `if`, as it makes a bucket of two known numbers; two
// options with defaults would have to be shown to be both there or both not.
#[tactic(auto, using(crate::proofs::Buckets::within_limits))]
fn full_bucket(sizes: &[u32], refills: &[u32], task: usize) -> Tokens
    requires { bucket_fault sizes.now refills.now ≡ None }
    ensures { FullOf (slice_index_or sizes.now task 1) (slice_index_or refills.now task 1) result }
{
    if task < sizes.len() {
        Tokens::new(sizes[task], refills[task])
    } else {
        Tokens::new(1, 1)
    }
}

impl PerTask<Tokens> {
    // Full buckets of these sizes and refill times for the first tasks; the others get a token in every tick. The
    // curves of every bucket are paced, and subadditive.
    #[tactic(auto, using(crate::proofs::Buckets::all_buckets_paced, crate::proofs::Buckets::all_buckets_subadditive))]
    pub fn new(sizes: &[u32], refills: &[u32]) -> Result<Bucket, SetFault>
        ensures made { Bucketed sizes.now refills.now result }
        ensures paced { (rule : Bucket) → AllPaced (bucket_curve rule) }
        ensures subadditive { (rule : Bucket) → AllSubadditive (bucket_curve rule) }
    {
        if is_miscounted(sizes, refills) {
            return Err(SetFault::OffScale { task: 0 });
        }
        if let Some(task) = first_off_limits(sizes, refills) {
            return Err(SetFault::OffScale { task });
        }
        Ok(PerTask::from(array::from_fn(|task| full_bucket(sizes, refills, task))))
    }
}
