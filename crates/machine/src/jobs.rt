// The jobs of a machine, one record for each task.
ghost use Rattle.std.specs.Prelude.{◌≡◌, replicate};

// A job in one of its three states. Ages are counted in ticks from the release.
#[derive(Clone, Copy, PartialEq, Eq, Debug)]
pub enum Job {
    // no job is open
    Closed,
    // open, and the window of its present part has not begun
    Waiting { age: u32, part: usize },
    // open, and its present part has begun and has cost left
    Ready { age: u32, left: u32, part: usize },
}

// What happens to a job.
#[derive(Clone, Copy, PartialEq, Eq, Debug)]
pub enum Event {
    Release,
    Finish,
    Tick { ran: bool },
}

// One record for each of 32 tasks: a plain struct inside the dispatcher, which changes it through `&mut self`.
#[derive(Clone, Copy)]
pub struct JobTable {
    pub(crate) jobs: [Job; 32],
}

impl JobTable {
    // No job is open.
    pub(crate) fn closed() -> JobTable
        ensures { result.jobs ≡ replicate 32 Job.Closed }
    {
        JobTable {
            jobs: [Job::Closed; 32],
        }
    }
}

mod steps;
