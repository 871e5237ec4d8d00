// The one example that needs a machine's private parts: a clock that no run of a test could reach.
use crate::Machine;
use crate::fault::MachineFault;
use parts::lists::Proposal;
use plan::check;
use plan::checked::CheckedPlan;
use rules::spaced::Spaced;
use schedule::Part;
use std::test::Fail;
use tasks::rate_monotonic::RateMonotonic;
use tasks::set::TaskSet;

// Periods 10 and 16, costs 5 and 6, each task whole on the one processor. The tests of `vectors` make the same machine: what
// stands under `cfg(test)` is of one crate alone.
fn two_tasks() -> Result<Machine<RateMonotonic, Spaced>, Fail> {
    let set = TaskSet::new(&[10, 16], &[5, 6])?;
    let first = Part {
        task: 0,
        processor: 0,
        cost: 5,
        window: 10,
    };
    let second = Part {
        task: 1,
        processor: 0,
        cost: 6,
        window: 16,
    };
    let proposal = Proposal::from_slice(&[first, second])?;
    let mut place = CheckedPlan::new(RateMonotonic, Spaced::new(&set));
    let mut responses = [0; 2];
    check::check(
        set,
        1,
        proposal,
        RateMonotonic,
        Spaced::new(&set),
        &mut place,
        &mut responses,
    )?;
    Ok(Machine::start(place))
}

#[test]
fn a_clock_wears_out(rt: HostRuntime) -> Result<(), Fail> {
    let mut machine = two_tasks()?;
    machine.clock = 1_099_511_627_776;
    let mut answer = [7];
    assert_eq!(rt; machine.tick(&mut answer), Err(MachineFault::WornOut));
    assert_eq!(rt; answer, [7]);
    assert_eq!(rt; machine.clock(), 1_099_511_627_776);
    Ok(())
}
