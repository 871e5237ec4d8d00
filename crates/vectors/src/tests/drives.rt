// A plan checked, started and driven by a list of calls, all in one.
use driving::{Call, Done, Outcome, drive};
use machine::fault::MachineFault;
use parts::fault::PlanFault;
use parts::lists::Proposal;
use plan::checked::CheckedPlan;
use rules::spaced::Spaced;
use schedule::Part;
use std::test::Fail;
use tasks::rate_monotonic::RateMonotonic;
use tasks::set::TaskSet;

// Periods 10 and 16, costs 5 and 6, each task whole on the one processor, the second in a window of so many ticks. The answer is
// why it was not driven, or the clock after the calls.
fn clock_after(
    window: u32,
    times: &mut [u32],
    calls: &[Call],
    outcomes: &mut [Outcome],
) -> Result<Result<u64, MachineFault>, Fail> {
    let set = TaskSet::new(&[10, 16], &[5, 6])?;
    let first = Part {
        task: 0,
        processor: 0,
        cost: 5,
        window: 10,
    };
    let second = Part {
        task: 1,
        processor: 0,
        cost: 6,
        window,
    };
    let proposal = Proposal::from_slice(&[first, second])?;
    let rule = Spaced::new(&set);
    let place = CheckedPlan::new(RateMonotonic, rule);
    match drive(
        set,
        1,
        proposal,
        RateMonotonic,
        rule,
        place,
        times,
        calls,
        outcomes,
    ) {
        Ok(machine) => Ok(Ok(machine.clock())),
        Err(undriven) => Ok(Err(undriven.fault)),
    }
}

// What a tick ran on the first processor; none where the call was no taken tick.
fn ran(outcome: Outcome) -> Option<u8> {
    match outcome {
        Ok(Done::Ran { bytes }) => Some(bytes[0]),
        Ok(Done::Taken) | Err(_) => None,
    }
}

fn refusal(outcome: Outcome) -> Option<MachineFault> {
    outcome.err()
}

#[test]
fn every_call_is_answered(rt: HostRuntime) -> Result<(), Fail> {
    let calls = [
        Call::Tick { room: 1 },
        Call::Release { task: 1 },
        Call::Tick { room: 8 },
        Call::Release { task: 1 },
        Call::Release { task: 0 },
        Call::Tick { room: 0 },
        Call::Tick { room: 1 },
        Call::Finish { task: 0 },
        Call::Tick { room: 1 },
        Call::Finish { task: 2 },
    ];
    let mut times = [7; 3];
    let mut outcomes = [Ok(Done::Taken); 11];
    assert_eq!(rt; clock_after(16, &mut times, &calls, &mut outcomes)?, Ok(4));
    assert_eq!(rt; times, [5, 16, 7]);
    assert_eq!(rt;
        [
            ran(outcomes[0]),
            ran(outcomes[2]),
            ran(outcomes[6]),
            ran(outcomes[8]),
        ],
        [Some(255), Some(1), Some(0), Some(1)]
    );
    assert_eq!(rt;
        [
            refusal(outcomes[3]),
            refusal(outcomes[4]),
            refusal(outcomes[5]),
            refusal(outcomes[9]),
        ],
        [
            Some(MachineFault::TooSoon { task: 1 }),
            None,
            Some(MachineFault::Cramped { needed: 1 }),
            Some(MachineFault::Unknown { number: 2 }),
        ]
    );
    Ok(())
}

#[test]
fn a_late_plan_is_not_driven(rt: HostRuntime) -> Result<(), Fail> {
    let late = Err(MachineFault::Plan(PlanFault::Late { part: 1 }));
    let calls = [Call::Tick { room: 1 }; 2];
    let mut times = [7; 2];
    let mut outcomes = [Err(MachineFault::WornOut); 2];
    assert_eq!(rt; clock_after(15, &mut times, &calls, &mut outcomes)?, late);
    // named before the room that the outcomes lack
    assert_eq!(rt; clock_after(15, &mut times, &calls, &mut [])?, late);
    assert_eq!(rt;
        clock_after(16, &mut times, &calls, &mut outcomes[0..1])?,
        Err(MachineFault::Cramped { needed: 2 })
    );
    assert_eq!(rt; times, [7; 2]);
    assert!(rt; refusal(outcomes[0]).is_some() && refusal(outcomes[1]).is_some());
    Ok(())
}
