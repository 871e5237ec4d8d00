// What has been read of a sheet, before it is made into a task set or a plan.
use parts::fixed::FixedList;

// The numbers of a task sheet, in two lists as its lines have them: what is wrong with a list is found by the task set.
#[derive(Clone, Copy)]
pub struct TaskDraft {
    pub processors: usize,
    pub periods: FixedList<u32, 32>,
    pub costs: FixedList<u32, 32>,
}

pub mod sheets;
