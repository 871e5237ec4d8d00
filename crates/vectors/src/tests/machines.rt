// Examples of a machine's calls.
use crate::tests::running::{runs, two_tasks};
use machine::fault::MachineFault;
use std::test::Fail;

#[test]
fn tasks_take_turns(rt: HostRuntime) -> Result<(), Fail> {
    let mut machine = two_tasks()?;
    machine.release(0)?;
    machine.release(1)?;
    runs(&rt, &mut machine, 5, [0, 7])?;
    runs(&rt, &mut machine, 4, [1, 7])?;
    assert_eq!(rt; machine.release(0), Err(MachineFault::TooSoon { task: 0 }));
    runs(&rt, &mut machine, 1, [1, 7])?;
    machine.release(0)?;
    runs(&rt, &mut machine, 5, [0, 7])?;
    runs(&rt, &mut machine, 1, [1, 7])?;
    runs(&rt, &mut machine, 1, [255, 7])?;
    assert_eq!(rt; machine.clock(), 17);
    Ok(())
}

#[test]
fn calls_are_refused(rt: HostRuntime) -> Result<(), Fail> {
    let mut machine = two_tasks()?;
    assert_eq!(rt;
        machine.release(2),
        Err(MachineFault::Unknown { number: 2 })
    );
    assert_eq!(rt; machine.finish(2), Err(MachineFault::Unknown { number: 2 }));
    assert_eq!(rt; machine.finish(1), Err(MachineFault::NoJob { task: 1 }));
    assert_eq!(rt;
        machine.tick(&mut []),
        Err(MachineFault::Cramped { needed: 1 })
    );
    assert_eq!(rt;
        machine.ready_word(1),
        Err(MachineFault::Unknown { number: 1 })
    );
    assert_eq!(rt;
        machine.ready_count(1),
        Err(MachineFault::Unknown { number: 1 })
    );
    Ok(())
}

#[test]
fn a_job_can_end_early(rt: HostRuntime) -> Result<(), Fail> {
    let mut machine = two_tasks()?;
    machine.release(1)?;
    machine.release(0)?;
    assert_eq!(rt; machine.ready_word(0)?, 3);
    assert_eq!(rt; machine.ready_count(0)?, 2);
    machine.finish(0)?;
    assert_eq!(rt; machine.ready_word(0)?, 2);
    runs(&rt, &mut machine, 1, [1, 7])?;
    machine.restart();
    runs(&rt, &mut machine, 1, [255, 7])
}
