// Making the calls of a list, one after another. What is asked of a machine here, that its ranks are those of its order, is no
// part of its type: the type has no bounds, so that all may hold, stop and drop one.
ghost use Rattle.std.specs.Prelude.{◌≡◌, ℕ, ◌<◌, ◌≤◌, List, map, length, drop, slice_index_or, Ok};
ghost use Rattle.schedule.specs.TickRule.{history, state_after};
ghost use Rattle.schedule.specs.Sameness.{Same};
ghost use Rattle.driving.specs.Driving.{call_of, outcome_meant, recorded};
ghost use Rattle.machine.specs.Meaning.{processors_of, system_of, state_of, ByMachine, Ranked, Obeys, GoesOn};
ghost use Rattle.driving.specs.declared.Done.TheVariants.{Taken};

use crate::{Call, Done, Outcome};
use machine::Machine;
use parts::lists::MAX_PROCESSORS;
use tasks::arrival::ArrivalRule;
use tasks::order::PriorityOrder;

// Makes one call. A tick is lent as much of a buffer as the call has room for, which no plan needs longer than 8 bytes.
fn make_call<O: PriorityOrder, R: ArrivalRule>(machine: &mut Machine<O, R>, call: Call) -> Outcome
    requires { Ranked machine.old O.before }
    ensures obeyed { Obeys machine.old machine.new O.before R.curve R.left (call_of call) (outcome_meant (processors_of machine.old) result) }
    ensures same { GoesOn machine.old machine.new R.curve }
    ensures own { ByMachine result }
{
    match call {
        Call::Release { task } => machine.release(task).map(|()| Done::Taken),
        Call::Finish { task } => machine.finish(task).map(|()| Done::Taken),
        Call::Tick { room } => {
            let mut bytes = [255; MAX_PROCESSORS];
            machine.tick(&mut bytes[..room.min(MAX_PROCESSORS)])?;
            Ok(Done::Ran { bytes })
        }
    }
}

// Makes the calls in turn, and writes what came of each.
pub(crate) fn run<O: PriorityOrder, R: ArrivalRule>(
    machine: &mut Machine<O, R>,
    calls: &[Call],
    outcomes: &mut [Outcome],
)
    requires ranked { Ranked machine.old O.before }
    requires room { length calls.now ≤ length outcomes.old }
    ensures told { recorded (processors_of machine.old) calls.now outcomes.new ≡ history (system_of machine.old O.before R.curve) (state_of machine.old R.left) (map call_of calls.now) }
    ensures state { Same (system_of machine.old O.before R.curve) (state_of machine.new R.left) (state_after (system_of machine.old O.before R.curve) (state_of machine.old R.left) (map call_of calls.now)) }
    ensures same { GoesOn machine.old machine.new R.curve }
    ensures own { (k : ℕ) → k < length calls.now → ByMachine (slice_index_or outcomes.new k (Ok Taken)) }
    ensures rest { drop (length calls.now) outcomes.new ≡ drop (length calls.now) outcomes.old }
{
    // the outcomes by number: after a `zip` with `iter_mut` a proof knows no element of them
    for (i, call) in calls.iter().enumerate() {
        outcomes[i] = make_call(machine, *call);
    }
}
