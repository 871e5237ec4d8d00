// Task sheets and plan sheets: reading both, and writing plan sheets.
#![tactic(auto)]

use tasks::set::TaskSet;

mod drafts;
mod lines;
pub mod reading;
mod text;
pub mod writing;

// What a task sheet says: the tasks, and how many processors there are.
#[derive(Clone, Copy)]
pub struct TaskSheet {
    pub set: TaskSet,
    pub processors: usize,
}
