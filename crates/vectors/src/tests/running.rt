// Machines of examples, and what they run.
use machine::Machine;
use parts::lists::Proposal;
use plan::check;
use plan::checked::CheckedPlan;
use rules::spaced::Spaced;
use schedule::Part;
use std::process::Abort;
use std::test::Fail;
use tasks::rate_monotonic::RateMonotonic;
use tasks::set::TaskSet;

// Periods 10 and 16, costs 5 and 6, each task whole on the one processor.
pub fn two_tasks() -> Result<Machine<RateMonotonic, Spaced>, Fail> {
    let set = TaskSet::new(&[10, 16], &[5, 6])?;
    let first = Part {
        task: 0,
        processor: 0,
        cost: 5,
        window: 10,
    };
    let second = Part {
        task: 1,
        processor: 0,
        cost: 6,
        window: 16,
    };
    let proposal = Proposal::from_slice(&[first, second])?;
    let mut place = CheckedPlan::new(RateMonotonic, Spaced::new(&set));
    let mut responses = [0; 2];
    check::check(
        set,
        1,
        proposal,
        RateMonotonic,
        Spaced::new(&set),
        &mut place,
        &mut responses,
    )?;
    Ok(Machine::start(place))
}

// In each of the next ticks a buffer of sevens holds these bytes afterwards.
pub fn runs<const N: usize>(
    rt: &impl Abort,
    machine: &mut Machine<RateMonotonic, Spaced>,
    ticks: u8,
    wanted: [u8; N],
) -> Result<(), Fail> {
    for _ in 0..ticks {
        let mut answer = [7; N];
        machine.tick(&mut answer)?;
        assert_eq!(rt; answer, wanted);
    }
    Ok(())
}
