// How a task set is made, and what can be asked of it.
ghost use Rattle.std.specs.Prelude.{◌≡◌, ℕ, ◌<◌, ◌≤◌, length, take, Some, slice_get, slice_index};
ghost use Rattle.tasks.specs.Searches.{first_where};
ghost use Rattle.tasks.specs.Sets.{Made, Holds, off_scale, falls, overfull, on_scale, miscounted, count_of, task_list, period_of, cost_of, key_of};

use crate::fault::SetFault;
use crate::order::TaskKey;
use crate::set::{MAX_TASKS, MAX_TICKS, Task, TaskSet};

// Whether the count of tasks is outside 1 to 32, or the two lists are not equally long.
pub fn is_miscounted(values: &[u32], others: &[u32]) -> bool
    ensures { result ≡ miscounted values.now others.now }
{
    !(1..=MAX_TASKS).contains(&values.len()) || others.len() != values.len()
}

// Whether a period, a cost or a refill time is within its limits.
pub fn is_on_scale(ticks: u32) -> bool
    ensures { result ≡ on_scale ticks }
{
    (1..=MAX_TICKS).contains(&ticks)
}

// The searches take the two lists as `new` is given them, since what they refuse is said of the lists; only lists that pass are made tasks of.

// The first task whose period or cost is outside its limits.
fn first_off_scale(periods: &[u32], costs: &[u32]) -> Option<usize>
    requires { length costs.now ≡ length periods.now }
    ensures { result ≡ first_where (off_scale periods.now costs.now) (length periods.now) }
{
    periods.iter().zip(costs).position(|(period, cost)| {
        !is_on_scale(*period) || !is_on_scale(*cost)
    })
}

// The first task whose period is below the one before it.
fn first_falling(periods: &[u32]) -> Option<usize>
    ensures { result ≡ first_where (falls periods.now) (length periods.now) }
{
    (1..periods.len()).find(|i| periods[*i] < periods[*i - 1])
}

// The first task whose cost is above its period.
fn first_overfull(periods: &[u32], costs: &[u32]) -> Option<usize>
    requires { length costs.now ≡ length periods.now }
    ensures { result ≡ first_where (overfull periods.now costs.now) (length periods.now) }
{
    periods
        .iter()
        .zip(costs)
        .position(|(period, cost)| cost > period)
}

// The tasks with these periods and costs, and past the last of them tasks that are never read.
fn tasks_with(periods: &[u32], costs: &[u32]) -> [Task; MAX_TASKS]
    requires few { length periods.now ≤ 32 }
    requires as_many { length costs.now ≡ length periods.now }
    ensures whole { length result ≡ 32 }
    ensures each { (i : ℕ) → i < length periods.now → slice_get (take (length periods.now) result) i
        ≡ Some (record { period = slice_index periods.now i; cost = slice_index costs.now i }) }
{
    std::array::from_fn(|i| {
        if i < periods.len() {
            Task {
                period: periods[i],
                cost: costs[i],
            }
        } else {
            Task { period: 1, cost: 0 }
        }
    })
}

impl TaskSet {
    // The set of the tasks with these periods and costs, or what is wrong with them. They come as two lists, since lists of
    // different lengths are among the refusals that the rules name.
    pub fn new(periods: &[u32], costs: &[u32]) -> Result<TaskSet, SetFault>
        ensures { Made periods.now costs.now result }
    {
        if is_miscounted(periods, costs) {
            return Err(SetFault::OffScale { task: 0 });
        }
        if let Some(task) = first_off_scale(periods, costs) {
            return Err(SetFault::OffScale { task });
        }
        if let Some(task) = first_falling(periods) {
            return Err(SetFault::Falling { task });
        }
        if let Some(task) = first_overfull(periods, costs) {
            return Err(SetFault::Overfull { task });
        }
        Ok(TaskSet {
            count: periods.len(),
            tasks: tasks_with(periods, costs),
        })
    }

    // One task, whose period and cost are 1.
    pub fn smallest() -> TaskSet
        ensures { Holds 1 (λ _. 1) (λ _. 1) result }
    {
        TaskSet {
            count: 1,
            tasks: [Task { period: 1, cost: 1 }; MAX_TASKS],
        }
    }

    // How many tasks the set has.
    pub fn count(&self) -> usize
        ensures { result ≡ count_of self.now }
    {
        self.count
    }

    // The tasks of the set, in their order.
    pub fn tasks(&self) -> &[Task]
        ensures { result.now ≡ task_list self.now }
    {
        &self.tasks[..self.count]
    }

    // The period of a task; 1 past the set's tasks. No Option here, nor in `cost`: orders and rules may be asked of any number, and what
    // stands past the last task is the rules' own.
    pub fn period(&self, task: usize) -> u32
        ensures { result ≡ period_of self.now task }
    {
        self.tasks().get(task).map_or(1, |own| own.period)
    }

    // The cost of a task; 0 past the set's tasks.
    pub fn cost(&self, task: usize) -> u32
        ensures { result ≡ cost_of self.now task }
    {
        self.tasks().get(task).map_or(0, |own| own.cost)
    }

    // The task as a priority order is told it.
    pub fn key(&self, task: usize) -> TaskKey
        ensures { result ≡ key_of self.now task }
    {
        TaskKey {
            number: task,
            period: self.period(task),
        }
    }
}
