// A stretch of ticks on the machine, with every task released as often as it may be.
use console::Times;
use driving::{Call, Done, Outcome, drive};
use machine::fault::MachineFault;
use parts::lists::{MAX_PARTS, PartList, Proposal};
use plan::checked::CheckedPlan;
use rules::spaced::Spaced;
use sheets::TaskSheet;
use std::alloc::{AllocError, Global};
use std::io;
use tasks::rate_monotonic::RateMonotonic;

// How many ticks are shown.
const TICKS: usize = 100;

// The letters of the tasks are the 32 digits 0 to 9 and A to V.
const LETTERS: u32 = 32;

// In each tick a release of every task, most of them too soon, and the tick.
fn calls(heap: Global, tasks: usize, processors: usize) -> Result<Vec<Call>, AllocError> {
    let mut calls = Vec::new(heap);
    // loops over ticks and over task numbers: a call holds the number, and a push may fail
    for _ in 0..TICKS {
        for task in 0..tasks {
            calls.push(Call::Release { task })?;
        }
        calls.push(Call::Tick { room: processors })?;
    }
    Ok(calls)
}

// The column of a processor in what a tick answered: the letter of a task, or a dot where the processor was idle.
fn column(bytes: &[u8; 8], processor: usize) -> char {
    bytes
        .get(processor)
        .and_then(|task| char::from_digit(u32::from(*task), LETTERS))
        .map_or('.', |letter| letter.to_ascii_uppercase())
}

// One line for each processor, a column for each tick.
fn print_strip(rt: &HostRuntime, outcomes: &[Outcome], processors: usize) -> io::Result<()> {
    println!(rt;
        "the first {TICKS} ticks, a column each, with every task released as often as it may be"
    )?;
    // over numbers: the bytes of a tick go by them
    for processor in 0..processors {
        print!(rt; "processor {processor} ")?;
        for outcome in outcomes {
            if let Ok(Done::Ran { bytes }) = *outcome {
                let letter = column(&bytes, processor);
                print!(rt; "{letter}")?;
            }
        }
        println!(rt; "")?;
    }
    Ok(())
}

// Checks the plan and drives a machine with it; what came of that stands in the buffers.
fn driven(
    sheet: &TaskSheet,
    parts: PartList,
    times: &mut [u32],
    calls: &[Call],
    outcomes: &mut [Outcome],
) -> Result<(), MachineFault> {
    let proposal = Proposal::new(parts)?;
    let rule = Spaced::new(&sheet.set);
    let place = CheckedPlan::new(RateMonotonic, rule);
    let machine = drive(
        sheet.set,
        sheet.processors,
        proposal,
        RateMonotonic,
        rule,
        place,
        times,
        calls,
        outcomes,
    )
    .map_err(|undriven| undriven.fault)?;
    let _ = machine.stop();
    Ok(())
}

// Checks the plan, drives a machine with it and prints what came of it.
pub fn drive_and_print(rt: &HostRuntime, sheet: &TaskSheet, parts: PartList) -> anyhow::Result<()> {
    let calls = calls(rt.alloc(), sheet.set.count(), sheet.processors)?;
    let mut outcomes = vec![in rt.alloc(); Ok(Done::Taken); calls.len()]?;
    let mut times = [0; MAX_PARTS];
    match driven(sheet, parts, &mut times, &calls, &mut outcomes) {
        Ok(()) => {
            let times = Times(&times[0..parts.len()]);
            println!(rt; "accepted, with response times{times}")?;
            print_strip(rt, &outcomes, sheet.processors)?;
        }
        Err(fault) => println!(rt; "{fault}")?,
    }
    Ok(())
}
