// The checks of a plan's numbers, which ask neither the order nor the rule.
ghost use Rattle.std.specs.Prelude.{◌≡◌, ◌<◌, ◌≤◌, ◌&&◌, false, length, nat_le, MatchResult};
ghost use Rattle.schedule.specs.Layout.{span_of, work_of};
ghost use Rattle.tasks.specs.Searches.{first_where};
ghost use Rattle.tasks.specs.Sets.{count_of};
ghost use Rattle.tasks.specs.declared.fault.SetFault.TheVariants as Sets;
ghost use Rattle.plan.specs.Answers.{refused_or};
ghost use Rattle.plan.specs.Checks.{off_scale, stranger, twin, miscount, number_fault};
ghost use Rattle.parts.specs.Parts.{parts_of};

use parts::fault::PlanFault;
// callers name it by this path
pub use parts::lists::MAX_PROCESSORS;
use parts::lists::PartList;
use schedule::Part;
use tasks::fault::SetFault;
use tasks::set::TaskSet;
use tasks::set::methods::is_on_scale;

// What the parts of one task add up to.
#[derive(Clone, Copy)]
pub struct TaskSums {
    pub cost: u64,
    pub window: u64,
}

// The costs and the windows of the parts of one task, added up.
pub fn sums(list: &PartList, task: usize) -> TaskSums
    ensures cost { result.cost ≡ work_of (parts_of list.now) task }
    ensures window { result.window ≡ span_of (parts_of list.now) task }
{
    let mut sums = TaskSums { cost: 0, window: 0 };
    // a `for` with two sums: the project sums the costs and windows of a task in one loop over the plan's parts
    for part in list.as_slice() {
        if usize::from(part.task) == task {
            let Part { cost, window, .. } = *part;
            sums.cost += u64::from(cost);
            sums.window += u64::from(window);
        }
    }
    sums
}

// The first part whose cost or window is outside its limits.
fn first_off_scale(parts: &[Part]) -> Option<usize>
    ensures { result ≡ first_where (off_scale parts.now) (length parts.now) }
{
    parts.iter().position(|part| !is_on_scale(part.cost) || !is_on_scale(part.window))
}

// The first part that names a task or a processor that there is not.
fn first_stranger(set: &TaskSet, processors: usize, parts: &[Part]) -> Option<usize>
    ensures { result ≡ first_where (stranger set.now processors parts.now) (length parts.now) }
{
    parts.iter().position(|part| {
        set.count() <= usize::from(part.task) || processors <= usize::from(part.processor)
    })
}

// Whether an earlier part is of the task of the part at `index` and on its processor. (It takes the list and the place, as `twin`
// in its contract does.)
fn is_twin(parts: &[Part], index: usize) -> bool
    requires { index < length parts.now }
    ensures { result ≡ twin parts.now index }
{
    let place = (parts[index].task, parts[index].processor);
    parts[..index]
        .iter()
        .any(|earlier| (earlier.task, earlier.processor) == place)
}

// The first part that has such a twin.
fn first_twin(parts: &[Part]) -> Option<usize>
    ensures { result ≡ first_where (twin parts.now) (length parts.now) }
{
    (0..parts.len()).find(|index| is_twin(parts, *index))
}

// The first task whose cost is not what the costs of its parts add up to.
fn first_miscount(set: &TaskSet, list: &PartList) -> Option<usize>
    ensures { result ≡ first_where (miscount set.now (parts_of list.now)) (count_of set.now) }
{
    (0..set.count()).find(|task| sums(list, *task).cost != u64::from(set.cost(*task)))
}

// Refuses a count of processors outside 1 to 8.
pub fn check_processors(processors: usize) -> Result<(), SetFault>
    ensures { MatchResult result (λ _. (1 ≤ processors) × (processors ≤ 8)) (λ e. ((nat_le 1 processors && nat_le processors 8) ≡ false) × (e ≡ Sets.OffScale 0)) }
{
    if !(1..=MAX_PROCESSORS).contains(&processors) {
        return Err(SetFault::OffScale { task: 0 });
    }
    Ok(())
}

// What is wrong with the numbers of a plan, the first check that finds something first.
pub(crate) fn check_numbers(
    set: &TaskSet,
    processors: usize,
    list: &PartList,
) -> Result<(), PlanFault>
    ensures { result ≡ refused_or (number_fault set.now processors (parts_of list.now)) tt }
{
    check_processors(processors)?;
    let parts = list.as_slice();
    if parts.is_empty() {
        return Err(PlanFault::OffScale { part: 0 });
    }
    if let Some(part) = first_off_scale(parts) {
        return Err(PlanFault::OffScale { part });
    }
    if let Some(part) = first_stranger(set, processors, parts) {
        return Err(PlanFault::Stranger { part });
    }
    if let Some(part) = first_twin(parts) {
        return Err(PlanFault::Twin { part });
    }
    if let Some(task) = first_miscount(set, list) {
        return Err(PlanFault::Miscount { task });
    }
    Ok(())
}
