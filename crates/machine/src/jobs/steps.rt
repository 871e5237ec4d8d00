// What becomes of a job.
ghost use Rattle.std.specs.Prelude.{◌≡◌, ℕ, ◌<◌, true, slice_index_or, slice_set};
ghost use Rattle.schedule.specs.TickRule.{hand_over};
ghost use Rattle.tasks.specs.Sets.{count_of};
ghost use Rattle.parts.specs.Parts.{parts_of};
ghost use Rattle.machine.specs.Jobs.{meant, fits, in_time, may, after_event, ran_by, Aged};
ghost use Rattle.machine.specs.Placing.{from_part};
ghost use Rattle.machine.specs.declared.jobs.Job.TheVariants.{Closed};

use crate::dispatcher::Dispatcher;
use crate::jobs::{Event, Job};
use crate::layout::Layout;
use crate::placed::PlacedPart;

// A job of this age that goes on with the part, or closes where there is none.
fn begun(layout: &Layout, age: u32, next: Option<usize>) -> Job
    requires { in_time (parts_of layout.now.list) age next ≡ true }
    ensures meaning { meant (parts_of layout.now.list) result ≡ hand_over age (from_part (parts_of layout.now.list) next) }
    ensures fitting { fits (parts_of layout.now.list) result ≡ true }
{
    match next {
        None => Job::Closed,
        Some(part) => {
            let placed = layout.placed[part];
            if age < placed.begin {
                Job::Waiting { age, part }
            } else {
                Job::Ready {
                    age,
                    left: placed.cost,
                    part,
                }
            }
        }
    }
}

impl Dispatcher {
    // The state of the task's job and the event together decide its next state.
    fn next_state(&self, task: usize, event: Event) -> Job
        requires known { task < 32 }
        requires may { may (slice_index_or self.now.table.jobs task Closed) event ≡ true }
        ensures meaning { meant (parts_of self.now.layout.list) result ≡ after_event (parts_of self.now.layout.list) task event (meant (parts_of self.now.layout.list) (slice_index_or self.now.table.jobs task Closed)) }
        ensures fitting { fits (parts_of self.now.layout.list) result ≡ true }
    {
        let layout = &self.layout;
        match (self.table.jobs[task], event) {
            (_, Event::Release) => begun(layout, 0, layout.first[task]),
            (_, Event::Finish) => Job::Closed,
            (Job::Closed, Event::Tick { .. }) => Job::Closed,
            (Job::Waiting { age, part }, Event::Tick { .. }) => begun(layout, age + 1, Some(part)),
            (Job::Ready { age, left, part }, Event::Tick { ran }) => {
                let PlacedPart { end, next, .. } = layout.placed[part];
                let older = age + 1;
                let rest = if ran { left - 1 } else { left };
                if rest == 0 || older == end {
                    begun(layout, older, next)
                } else {
                    Job::Ready {
                        age: older,
                        left: rest,
                        part,
                    }
                }
            }
        }
    }

    // Whether the task's job is the one that runs on the processor of its part.
    fn has_run(&self, task: usize, running: &[u8; 8]) -> bool
        requires known { task < 32 }
        ensures { result ≡ ran_by (parts_of self.now.layout.list) running.now task (slice_index_or self.now.table.jobs task Closed) }
    {
        match self.table.jobs[task] {
            Job::Ready { part, .. } => {
                usize::from(running[usize::from(self.layout.placed[part].processor)]) == task
            }
            Job::Waiting { .. } | Job::Closed => false,
        }
    }

    // Changes the record of one task by an event.
    pub(crate) fn happen(&mut self, task: usize, event: Event)
        requires known { task < 32 }
        requires may { may (slice_index_or self.old.table.jobs task Closed) event ≡ true }
        ensures layout { self.new.layout ≡ self.old.layout }
        ensures others { self.new.table.jobs ≡ slice_set self.old.table.jobs task (slice_index_or self.new.table.jobs task Closed) }
        ensures meaning { meant (parts_of self.old.layout.list) (slice_index_or self.new.table.jobs task Closed) ≡ after_event (parts_of self.old.layout.list) task event (meant (parts_of self.old.layout.list) (slice_index_or self.old.table.jobs task Closed)) }
    {
        self.table.jobs[task] = self.next_state(task, event);
    }

    // A tick passes for the job of each task.
    pub(crate) fn grow_older(&mut self, running: &[u8; 8])
        ensures layout { self.new.layout ≡ self.old.layout }
        ensures aged { (i : ℕ) → i < count_of self.old.layout.set → Aged (parts_of self.old.layout.list) running.now i (slice_index_or self.old.table.jobs i Closed) (slice_index_or self.new.table.jobs i Closed) }
    {
        // by number: `happen` takes the dispatcher whole, and an `iter_mut` over its records would keep them lent meanwhile
        for task in 0..self.layout.set.count() {
            let ran = self.has_run(task, running);
            self.happen(task, Event::Tick { ran });
        }
    }
}
