// Takes a task sheet from beginning to end and tells a person what was done with it. Arguments name the tasks, in their order.
#![tactic(auto)]

use console::{KEPT, read_input};
use parts::fault::PlanFault;
use parts::lists::Proposal;
use rules::spaced::Spaced;
use sheets::TaskSheet;
use sheets::reading::read_task_sheet;
use spa2::planning::plan;
use tasks::rate_monotonic::RateMonotonic;

mod names;
mod report;
mod strip;

use names::Names;
use report::Report;

// What the planner made of a sheet.
struct Planned {
    sheet: TaskSheet,
    proposal: Proposal,
}

// The sheet's tasks and their plan, under rate-monotonic order and spaced arrivals.
fn plan_of_sheet(bytes: &[u8]) -> Result<Planned, PlanFault> {
    let sheet = read_task_sheet(bytes)?;
    let proposal = plan(
        &sheet.set,
        sheet.processors,
        &RateMonotonic,
        &Spaced::new(&sheet.set),
    )?;
    Ok(Planned { sheet, proposal })
}

fn main(rt: HostRuntime) -> anyhow::Result<()> {
    let names = Names::from_args(&rt)?;
    let mut input = [0; KEPT];
    let bytes = read_input(&rt, &mut input)?;
    match plan_of_sheet(bytes) {
        Ok(Planned { sheet, proposal }) => {
            let parts = proposal.give_up();
            let report = Report::new(&rt, &names, &sheet);
            report.tasks()?;
            report.processors(parts.as_slice())?;
            report.cut_tasks(parts.as_slice())?;
            strip::drive_and_print(&rt, &sheet, parts)
        }
        Err(fault) => {
            println!(rt; "{fault}")?;
            Ok(())
        }
    }
}
