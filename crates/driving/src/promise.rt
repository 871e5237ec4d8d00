// A plan checked, started and driven by a list of calls: the whole promise in one place.
ghost use Rattle.std.specs.Prelude.{◌≡◌, map, MatchResult};
ghost use Rattle.schedule.specs.Sameness.{Same};
ghost use Rattle.schedule.specs.TickRule.{started, state_after};
ghost use Rattle.tasks.specs.Arrivals.{SameCurves};
ghost use Rattle.parts.specs.Parts.{plan_of, parts_of};
ghost use Rattle.plan.specs.Systems.{system};
ghost use Rattle.driving.specs.Driving.{Promised, call_of, fault_in};
ghost use Rattle.machine.specs.Meaning.{set_of, processors_of, list_of, state_of, Ranked};

use crate::runs::run;
use crate::{Call, Outcome, Undriven};
use machine::Machine;
use machine::fault::MachineFault;
use parts::lists::Proposal;
use plan::check::{check, fault_of};
use plan::checked::CheckedPlan;
use tasks::arrival::ArrivalRule;
use tasks::order::PriorityOrder;
use tasks::set::TaskSet;

// Checks a plan, starts a machine from it and makes the calls in turn, refused ones too. Accepted, the response times stand in the
// first entries of `responses`, what came of each call in the first entries of `outcomes`, and the machine is handed over to go on.
// Refused, the buffers are as they were, and the place is handed back as it was.
pub fn drive<O: PriorityOrder + Drop, R: ArrivalRule + Drop>(
    set: TaskSet,
    processors: usize,
    proposal: Proposal,
    order: O,
    rule: R,
    mut place: CheckedPlan<O, R>,
    responses: &mut [u32],
    calls: &[Call],
    outcomes: &mut [Outcome],
) -> Result<Machine<O, R>, Undriven<O, R>>
    ensures promise { Promised set processors (plan_of proposal) (O.before order) (R.curve rule) calls.now responses.old responses.new outcomes.old outcomes.new (fault_in result) }
    ensures machine { MatchResult result (λ m. Ranked m O.before × (set_of m ≡ set) × (processors_of m ≡ processors) × (parts_of (list_of m) ≡ plan_of proposal) × (m.order ≡ order) × SameCurves (R.curve rule) (R.curve m.rule) × Same (system set processors (plan_of proposal) (O.before order) (R.curve rule)) (state_of m R.left) (state_after (system set processors (plan_of proposal) (O.before order) (R.curve rule)) (started (system set processors (plan_of proposal) (O.before order) (R.curve rule))) (map call_of calls.now))) (λ u. u.place ≡ place) }
{
    let needed = calls.len();
    if outcomes.len() < needed {
        let fault = fault_of(&set, processors, &proposal, &order, &rule, responses.len()).map_or(
            MachineFault::Cramped { needed },
            MachineFault::from,
        );
        let _ = proposal.give_up();
        return Err(Undriven { fault, place });
    }
    match check(
        set, processors, proposal, order, rule, &mut place, responses,
    ) {
        Ok(_) => {
            let mut machine = Machine::start(place);
            run(&mut machine, calls, outcomes);
            Ok(machine)
        }
        Err(fault) => Err(Undriven {
            fault: fault.into(),
            place,
        }),
    }
}
