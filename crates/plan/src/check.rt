// The check of a plan.
ghost use Rattle.std.specs.Prelude.{◌≡◌, length, MatchResult};
ghost use Rattle.plan.specs.Answers.{check_fault, check_answer, check_buffer, ExactlyLate};
ghost use Rattle.parts.specs.Parts.{parts_of, plan_of};

use crate::candidate::Candidate;
use crate::checked::CheckedPlan;
use parts::fault::PlanFault;
use parts::lists::Proposal;
use tasks::arrival::ArrivalRule;
use tasks::order::PriorityOrder;
use tasks::set::TaskSet;

// What the check would refuse a plan for, where there is room for so many response times; none where it would accept it. No Result: a
// fault is what is asked for, and nothing has failed.
pub fn fault_of<O: PriorityOrder, R: ArrivalRule>(
    set: &TaskSet,
    processors: usize,
    proposal: &Proposal,
    order: &O,
    rule: &R,
    room: usize,
) -> Option<PlanFault>
    ensures { result ≡ check_fault set.now processors (plan_of proposal.now) (O.before order.now) (R.curve rule.now) room }
{
    let list = proposal.to_list();
    Candidate::new(set, processors, &list, order, rule)
        .and_then(|plan| plan.judge(room))
        .err()
}

// Checks a plan for the tasks of a set on `processors` processors, under a priority order and an arrival rule. Accepted, the response
// times of its parts stand in the first entries of `responses`, `place` holds the plan with all that it was checked under, and the
// answer is how many parts it has. Refused, both are as they were. The proposal is used up either way. Place and buffer are the caller's, as the
// rules have it: no memory is made here.
pub fn check<O: PriorityOrder + Drop, R: ArrivalRule + Drop>(
    set: TaskSet,
    processors: usize,
    proposal: Proposal,
    order: O,
    rule: R,
    place: &mut CheckedPlan<O, R>,
    responses: &mut [u32],
) -> Result<usize, PlanFault>
    ensures answer { result ≡ check_answer set processors (plan_of proposal) (O.before order) (R.curve rule) (length responses.old) }
    ensures times { responses.new ≡ check_buffer set processors (plan_of proposal) (O.before order) (R.curve rule) result responses.old }
    ensures held { MatchResult result (λ _. (place.new.set ≡ set) × (place.new.processors ≡ processors) × (parts_of place.new.list ≡ plan_of proposal) × (place.new.order ≡ order) × (place.new.rule ≡ rule)) (λ _. place.new ≡ place.old) }
    ensures exact { ExactlyLate set processors (plan_of proposal) (O.before order) (R.curve rule) result }
{
    let list = proposal.give_up();
    let times = Candidate::new(&set, processors, &list, &order, &rule)?.judge(responses.len())?;
    let count = times.len();
    responses[..count].copy_from_slice(times.as_slice());
    *place = CheckedPlan {
        set,
        processors,
        list,
        order,
        rule,
    };
    Ok(count)
}
