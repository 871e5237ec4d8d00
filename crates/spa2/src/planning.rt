// The planner's call.
ghost use Rattle.std.specs.Prelude.{◌≡◌, ◌≤◌, IfOk, IfErr, Some};
ghost use Rattle.parts.specs.Faults.{shown};
ghost use Rattle.parts.specs.Parts.{plan_of};
ghost use Rattle.spa2.specs.Laws.{Lawful};
ghost use Rattle.spa2.specs.Plans.{plan_for, answered, refusal_of, listed_parts};
ghost use Rattle.spa2.specs.Placing.{tasks_of, parts_placed};

use crate::piece::Piece;
use crate::state::{Planner, Processor, Standing};
use crate::windows::with_windows;
use parts::fault::PlanFault;
// callers have always named the limit by this path
pub use parts::lists::MAX_PROCESSORS;
use parts::lists::{PartList, Proposal};
use plan::numbers::check_processors;
use tasks::arrival::ArrivalRule;
use tasks::order::PriorityOrder;
use tasks::set::{MAX_TASKS, TaskSet};

// The parts of the tasks on so many processors, without windows.
fn placed_parts(set: &TaskSet, count: usize) -> Result<PartList, PlanFault>
    requires { count ≤ 8 }
    ensures { listed_parts result ≡ parts_placed (tasks_of set.now) count }
{
    let mut processors = [Processor {
        load: 0,
        standing: Standing::Open,
    }; MAX_PROCESSORS];
    let mut pieces = [Piece { task: 0, cost: 0 }; MAX_TASKS];
    let mut reserve = [0; MAX_PROCESSORS];
    let mut planner = Planner::new(&mut processors[0..count], &mut pieces, &mut reserve);
    planner.visit_all(set);
    planner.fill(set)?;
    Ok(planner.parts())
}

// The plan of a task set on so many processors, under the order and the rule; a count outside 1 to 8 is refused.
pub fn plan<O: PriorityOrder, R: ArrivalRule>(
    set: &TaskSet,
    processors: usize,
    order: &O,
    rule: &R,
) -> Result<Proposal, PlanFault>
    ensures value { answered result ≡ plan_for set.now processors (O.before order.now) (R.curve rule.now) }
    ensures refusal { IfErr result (λ e. refusal_of (plan_for set.now processors (O.before order.now) (R.curve rule.now)) ≡ Some (shown e)) }
    ensures lawful { IfOk result (λ p. Lawful set.now processors (O.before order.now) (R.curve rule.now) (plan_of p)) }
{
    check_processors(processors)?;
    let parts = placed_parts(set, processors)?;
    Proposal::new(with_windows(set, &parts, order, rule)?)
}
