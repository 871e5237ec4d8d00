// What was done with a sheet, in words.
use crate::names::Names;
use schedule::Part;
use sheets::TaskSheet;
use spa2::load::task_load;
use spa2::theta::theta;
use std::{fmt, io};
use tasks::set::Task;

// What is said of a sheet, and whom it is said to.
#[derive(Clone, Copy)]
pub struct Report<'a> {
    rt: &'a HostRuntime,
    names: &'a Names,
    sheet: &'a TaskSheet,
}

// A load of so many millionths of a processor, written in percent with four places.
#[derive(Clone, Copy)]
struct Percent(u64);

impl fmt::Display for Percent {
    fn fmt<W: fmt::Write>(&self, f: &mut fmt::Formatter<W>) -> fmt::Result {
        let whole = self.0 / 10_000;
        let part = self.0 % 10_000;
        write!(f, "{whole}.{part:04} %")
    }
}

impl<'a> Report<'a> {
    pub fn new(rt: &'a HostRuntime, names: &'a Names, sheet: &'a TaskSheet) -> Report<'a> {
        Report { rt, names, sheet }
    }

    // Each task with its period, its cost and its load.
    pub fn tasks(self) -> io::Result<()> {
        let Report { rt, names, sheet } = self;
        let count = sheet.set.count();
        let processors = sheet.processors;
        let full = Percent(theta(count));
        println!(rt; "{count} tasks on {processors} processors, each filled up to {full}")?;
        for (task, Task { period, cost }) in sheet.set.tasks().iter().enumerate() {
            let name = names.of(task);
            let load = Percent(task_load(&sheet.set, task));
            println!(rt; "task {task} {name}: {cost} ticks every {period}, load {load}")?;
        }
        Ok(())
    }

    // Which processor got which part.
    pub fn processors(self, parts: &[Part]) -> io::Result<()> {
        let Report { rt, names, sheet } = self;
        // over numbers: processors are no more than that
        for processor in 0..sheet.processors {
            println!(rt; "processor {processor}")?;
            for part in parts
                .iter()
                .filter(|part| usize::from(part.processor) == processor)
            {
                let task = part.task;
                let name = names.of(usize::from(task));
                let cost = part.cost;
                println!(rt; "  {cost} ticks of task {task} {name}")?;
            }
        }
        Ok(())
    }

    // The life of each task that was cut: cost and window of each part, and from which tick to which after its release it may run.
    pub fn cut_tasks(self, parts: &[Part]) -> io::Result<()> {
        let Report { rt, names, sheet } = self;
        // over numbers: the parts name their tasks by them
        for task in 0..sheet.set.count() {
            let count = parts
                .iter()
                .filter(|part| usize::from(part.task) == task)
                .count();
            if count > 1 {
                let name = names.of(task);
                println!(rt; "task {task} {name} is cut into {count} parts")?;
                life(rt, parts, task)?;
            }
        }
        Ok(())
    }
}

// The parts of one task in time.
fn life(rt: &HostRuntime, parts: &[Part], task: usize) -> io::Result<()> {
    let mut begin = 0u64;
    for part in parts.iter().filter(|part| usize::from(part.task) == task) {
        let cost = part.cost;
        let window = part.window;
        let processor = part.processor;
        let end = begin.saturating_add(u64::from(window));
        println!(rt;
            "  {cost} ticks in a window of {window} on processor {processor}, from tick {begin} up to tick {end} after its release"
        )?;
        begin = end;
    }
    Ok(())
}
