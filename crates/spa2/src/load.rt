// Loads: how much of a processor a cost takes, in millionths.
ghost use Rattle.std.specs.Prelude.{◌≡◌, ◌*◌, ◌≤◌};
ghost use Rattle.spa2.specs.Loads.{load_of, heavy, cut_of};
ghost use Rattle.spa2.specs.Placing.{load_at, tasks_of, threshold};

use crate::theta::theta;
use tasks::set::TaskSet;

// A whole processor. (Loads and thresholds stay bare numbers, bounded in each contract: `task_load` and `theta` are public.)
pub const WHOLE: u64 = 1_000_000;

// The load of a cost in every period, rounded up.
pub(crate) fn load(cost: u32, period: u32) -> u64
    requires { 1 ≤ period }
    ensures value { result ≡ load_of cost period }
    ensures bound { result ≤ cost * 1000000 }
{
    (u64::from(cost) * WHOLE).div_ceil(u64::from(period))
}

// Whether a load is so large that its task may be placed beforehand.
pub(crate) fn is_heavy(load: u64, theta: u64) -> bool
    requires small { load ≤ 1000000 }
    requires threshold { theta ≤ 1000000 }
    ensures { result ≡ heavy theta load }
{
    load * (WHOLE + theta) > theta * WHOLE
}

// The cost that just fills a processor of the load up to the threshold, rounded down.
pub(crate) fn cut_cost(load: u64, theta: u64, period: u32) -> u32
    requires { theta ≤ 1000000 }
    ensures { result ≡ cut_of theta load period }
{
    // `as`: a part of a period is proved to fit, and plainer than a TryFrom that is unwrapped
    (theta.saturating_sub(load) * u64::from(period) / WHOLE) as u32
}

// The load of a task of the set; 0 past its tasks.
#[tactic(auto, using(crate::proofs::Steps::load_at_whole))]
pub fn task_load(set: &TaskSet, task: usize) -> u64
    ensures value { result ≡ load_at (tasks_of set.now) task }
    ensures bound { result ≤ 1000000 }
{
    load(set.cost(task), set.period(task))
}

// The load that a processor is filled up to, for the tasks of a set.
pub(crate) fn threshold_of(set: &TaskSet) -> u64
    ensures value { result ≡ threshold (tasks_of set.now) }
    ensures bound { result ≤ 1000000 }
{
    theta(set.count())
}
