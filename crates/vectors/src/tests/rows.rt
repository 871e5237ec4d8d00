// The rows of the table through the code: sheets in, sheets, response times, refusals and ticks out.
use crate::tests::running::runs;
use machine::Machine;
use machine::fault::MachineFault;
use parts::fault::PlanFault;
use plan::check::check;
use plan::checked::CheckedPlan;
use rules::spaced::Spaced;
use sheets::reading::{read_both, read_task_sheet};
use sheets::writing::write_plan_sheet;
use spa2::planning::plan;
use spa2::theta::theta;
use std::process::Abort;
use std::test::Fail;
use tasks::rate_monotonic::RateMonotonic;

// Plans the tasks of a sheet and writes the plan sheet.
fn planned(bytes: &[u8], out: &mut [u8]) -> Result<usize, PlanFault> {
    let sheet = read_task_sheet(bytes)?;
    let proposal = plan(
        &sheet.set,
        sheet.processors,
        &RateMonotonic,
        &Spaced::new(&sheet.set),
    )?;
    let written = write_plan_sheet(&proposal, out);
    let _ = proposal.give_up();
    written
}

// Checks the plan of both sheets.
fn checked(
    bytes: &[u8],
    times: &mut [u32],
) -> Result<CheckedPlan<RateMonotonic, Spaced>, PlanFault> {
    let (sheet, proposal) = read_both(bytes)?;
    let rule = Spaced::new(&sheet.set);
    let mut place = CheckedPlan::new(RateMonotonic, rule);
    check(
        sheet.set,
        sheet.processors,
        proposal,
        RateMonotonic,
        rule,
        &mut place,
        times,
    )?;
    Ok(place)
}

// The check accepts the plan with these response times; 0 stands past the last.
fn accepts(rt: &impl Abort, bytes: &[u8], wanted: [u32; 4]) -> Result<(), Fail> {
    let mut times = [0; 4];
    checked(bytes, &mut times)?;
    assert_eq!(rt; times, wanted);
    Ok(())
}

// The check refuses the plan for this fault, and writes no response time.
fn refuses(rt: &impl Abort, bytes: &[u8], wanted: PlanFault) {
    let mut times = [7; 4];
    match checked(bytes, &mut times) {
        Ok(_) => assert_eq!(rt; None, Some(wanted)),
        Err(fault) => assert_eq!(rt; Some(fault), Some(wanted)),
    }
    assert_eq!(rt; times, [7; 4]);
}

#[test]
fn more_tasks_fill_less(rt: HostRuntime) {
    assert_eq!(rt;
        [theta(1), theta(2), theta(3), theta(4)],
        [1000000, 828427, 779763, 756828]
    );
}

#[test]
fn a_task_is_cut_in_two(rt: HostRuntime) -> Result<(), Fail> {
    let mut out = [7; 64];
    let written = planned(b"T 3 2\nP 100 120 150\nC 60 60 60\n", &mut out)?;
    let wanted = b"K 4\nP 1/0 2/1 0/1 0/0\nA 60/120 60/150 37/37 23/63\n";
    assert_eq!(rt; written, wanted.len());
    assert_eq!(rt; &out[0..50], &wanted[0..50]);
    Ok(())
}

#[test]
fn plans_of_the_cut_task(rt: HostRuntime) -> Result<(), Fail> {
    accepts(
        &rt,
        b"T 3 2\nP 100 120 150\nC 60 60 60\nK 4\nP 1/0 2/1 0/1 0/0\nA 60/120 60/150 37/37 23/63\n",
        [83, 97, 37, 23],
    )?;
    refuses(
        &rt,
        b"T 3 2\nP 100 120 150\nC 60 60 60\nK 4\nP 1/0 2/1 0/1 0/0\nA 60/120 60/150 37/36 23/63\n",
        PlanFault::Late { part: 2 },
    );
    refuses(
        &rt,
        b"T 3 2\nP 100 120 150\nC 60 60 60\nK 4\nP 1/0 2/1 0/1 0/0\nA 60/120 60/150 37/37 22/63\n",
        PlanFault::Miscount { task: 0 },
    );
    refuses(
        &rt,
        b"T 3 2\nP 100 120 150\nC 60 60 60\nK 4\nP 1/0 2/1 0/1 0/0\nA 60/120 60/150 37/37 23/64\n",
        PlanFault::Overlap { task: 0 },
    );
    Ok(())
}

#[test]
fn plans_of_two_whole_tasks(rt: HostRuntime) -> Result<(), Fail> {
    accepts(
        &rt,
        b"T 2 1\nP 10 14\nC 5 5\nK 2\nP 0/0 1/0\nA 5/10 5/14\n",
        [5, 10, 0, 0],
    )?;
    accepts(
        &rt,
        b"T 2 1\nP 10 16\nC 5 6\nK 2\nP 0/0 1/0\nA 5/10 6/16\n",
        [5, 16, 0, 0],
    )?;
    refuses(
        &rt,
        b"T 2 1\nP 10 16\nC 5 6\nK 2\nP 0/0 1/0\nA 5/10 6/15\n",
        PlanFault::Late { part: 1 },
    );
    Ok(())
}

#[test]
fn a_release_waits_for_its_period(rt: HostRuntime) -> Result<(), Fail> {
    let mut times = [0; 2];
    let mut machine = Machine::start(checked(
        b"T 2 1\nP 10 16\nC 5 6\nK 2\nP 0/0 1/0\nA 5/10 6/16\n",
        &mut times,
    )?);
    machine.release(0)?;
    machine.release(1)?;
    runs(&rt, &mut machine, 5, [0])?;
    runs(&rt, &mut machine, 4, [1])?;
    assert_eq!(rt; machine.release(0), Err(MachineFault::TooSoon { task: 0 }));
    runs(&rt, &mut machine, 1, [1])?;
    machine.release(0)?;
    runs(&rt, &mut machine, 5, [0])?;
    runs(&rt, &mut machine, 1, [1])
}
