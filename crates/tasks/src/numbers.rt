// How questions read the numbers that they are asked.
ghost use Rattle.std.specs.Prelude.{◌≡◌, ◌<◌};
ghost use Rattle.tasks.specs.Numbers.{as_numbered, as_long};

use crate::set::MAX_TASKS;

// The longest stretch that is asked about.
const MAX_LENGTH: u64 = 1_000_000;

// A task's number; above 31 it is 31.
pub fn task_number(task: usize) -> usize
    ensures value { result ≡ as_numbered task }
    ensures bound { result < 32 }
{
    task.min(MAX_TASKS - 1)
}

// A length; above 1,000,000 it is 1,000,000.
pub fn stretch(length: u64) -> u64
    ensures { result ≡ as_long length }
{
    length.min(MAX_LENGTH)
}
