// Reads a task sheet with a plan sheet right after it on standard input, and writes R and the response times, or the fault, on
// standard output.
#![tactic(auto)]

ghost use Rattle.std.specs.Prelude.{◌≤◌, length, IfOk};

use console::{KEPT, Times, read_input};
use parts::fault::PlanFault;
use parts::lists::MAX_PARTS;
use plan::check::check;
use plan::checked::CheckedPlan;
use rules::spaced::Spaced;
use sheets::reading::read_both;
use std::io;
use tasks::rate_monotonic::RateMonotonic;

// Checks the plan of the sheets under rate-monotonic order and spaced arrivals, and answers how many response times it wrote.
fn check_sheets(bytes: &[u8], times: &mut [u32]) -> Result<usize, PlanFault>
    ensures { IfOk result (λ n. n ≤ length times.new) }
{
    let (sheet, proposal) = read_both(bytes)?;
    let rule = Spaced::new(&sheet.set);
    let mut place = CheckedPlan::new(RateMonotonic, rule);
    check(
        sheet.set,
        sheet.processors,
        proposal,
        RateMonotonic,
        rule,
        &mut place,
        times,
    )
}

fn main(rt: HostRuntime) -> io::Result<()> {
    let mut input = [0; KEPT];
    let bytes = read_input(&rt, &mut input)?;
    let mut times = [0; MAX_PARTS];
    match check_sheets(bytes, &mut times) {
        Ok(count) => {
            let times = Times(&times[0..count]);
            println!(rt; "R{times}")
        }
        Err(fault) => println!(rt; "{fault}"),
    }
}
