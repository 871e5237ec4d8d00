// Windows: how long each part may take from its begin.
ghost use Rattle.std.specs.Prelude.{◌≡◌, ◌+◌, ◌<◌, length, drop};
ghost use Rattle.parts.specs.Parts.{parts_of};
ghost use Rattle.plan.specs.Responses.{response_within};
ghost use Rattle.plan.specs.Systems.{system};
ghost use Rattle.spa2.specs.Placing.{tasks_of};
ghost use Rattle.spa2.specs.Plans.{listed_parts};
ghost use Rattle.spa2.specs.Windows.{has_part, window_of, windowed};

use parts::fault::PlanFault;
use parts::lists::PartList;
use plan::numbers::sums;
use plan::response::response_time;
use schedule::Part;
use tasks::arrival::ArrivalRule;
use tasks::order::PriorityOrder;
use tasks::set::TaskSet;

// Whether one of the parts is the task's.
fn is_listed(parts: &[Part], task: u8) -> bool
    ensures { result ≡ has_part task parts.now }
{
    parts.iter().any(|part| part.task == task)
}

// The window of a part, which stands behind those that are done and have theirs; none if it is not 1 or more.
// (Set, parts, order and rule stay parameters: the public `response_time` takes each, so a struct would only
// be taken apart.)
fn part_window<O: PriorityOrder, R: ArrivalRule>(
    set: &TaskSet,
    parts: &PartList,
    done: &PartList,
    part: Part,
    order: &O,
    rule: &R,
) -> Option<u32>
    requires { length (parts_of done.now) < length (parts_of parts.now) }
    ensures { result ≡ window_of (tasks_of set.now) (response_within (system set.now 0 (parts_of parts.now) (O.before order.now) (R.curve rule.now))) (parts_of done.now) part (drop (length (parts_of done.now) + 1) (parts_of parts.now)) }
{
    let task = usize::from(part.task);
    let period = set.period(task);
    if is_listed(&parts.as_slice()[done.len() + 1..], part.task) {
        return response_time(set, parts, part, period, order, rule);
    }
    // `as`: what is left of a period is proved to fit
    let left = u64::from(period).saturating_sub(sums(done, task).window) as u32;
    (left >= 1).then_some(left)
}

// The parts with their windows, or the first that has none.
pub(crate) fn with_windows<O: PriorityOrder, R: ArrivalRule>(
    set: &TaskSet,
    parts: &PartList,
    order: &O,
    rule: &R,
) -> Result<PartList, PlanFault>
    ensures { listed_parts result ≡ windowed (tasks_of set.now) (response_within (system set.now 0 (parts_of parts.now) (O.before order.now) (R.curve rule.now))) (parts_of parts.now) }
{
    let mut done = PartList::empty();
    for (number, part) in parts.as_slice().iter().enumerate() {
        let window = part_window(set, parts, &done, *part, order, rule).ok_or(PlanFault::Squeezed {
            part: number,
        })?;
        done.push(Part { window, ..*part }).unwrap();
    }
    Ok(done)
}
