// Reads a task sheet on standard input and writes the plan sheet, or the fault, on standard output.
#![tactic(auto)]

ghost use Rattle.std.specs.Prelude.{◌≤◌, length, IfOk};

use console::{KEPT, read_input};
use parts::fault::PlanFault;
use parts::lists::Proposal;
use rules::spaced::Spaced;
use sheets::reading::read_task_sheet;
use sheets::writing::write_plan_sheet;
use spa2::planning::plan;
use std::io;
use std::io::Write;
use tasks::rate_monotonic::RateMonotonic;

// More bytes than the longest plan sheet has.
const ROOM: usize = 2048;

// The plan of the tasks on the sheet, under rate-monotonic order and spaced arrivals. The program `bench` plans its sheet likewise and keeps
// it: a function for both would need a crate of its own, and a contract that repeats those of the two calls.
fn plan_of_sheet(bytes: &[u8]) -> Result<Proposal, PlanFault> {
    let sheet = read_task_sheet(bytes)?;
    plan(
        &sheet.set,
        sheet.processors,
        &RateMonotonic,
        &Spaced::new(&sheet.set),
    )
}

// Writes the plan sheet to the buffer, and answers its length.
fn plan_sheet(bytes: &[u8], out: &mut [u8]) -> Result<usize, PlanFault>
    ensures { IfOk result (λ n. n ≤ length out.new) }
{
    let proposal = plan_of_sheet(bytes)?;
    let written = write_plan_sheet(&proposal, out);
    let _ = proposal.give_up();
    written
}

fn main(rt: HostRuntime) -> io::Result<()> {
    let mut input = [0; KEPT];
    let bytes = read_input(&rt, &mut input)?;
    let mut out = [0; ROOM];
    match plan_sheet(bytes, &mut out) {
        Ok(written) => rt.stdout().write_all(&out[0..written]),
        Err(fault) => println!(rt; "{fault}"),
    }
}
