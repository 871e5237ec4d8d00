// Step 1: heavy tasks are placed beforehand, and the others become pieces.
ghost use Rattle.std.specs.Prelude.{◌≡◌, ◌<◌, length};
ghost use Rattle.tasks.specs.Sets.{count_of};
ghost use Rattle.spa2.specs.Placing.{tasks_of, followers, goes_beforehand, beforehand, visited, Visiting};
ghost use Rattle.spa2.specs.Seen.{seen};

use crate::load::{is_heavy, task_load, threshold_of};
use crate::piece::Piece;
use crate::state::{Planner, Processor, Standing};
use tasks::set::TaskSet;

// The loads of the tasks that follow a task.
fn followers_load(set: &TaskSet, task: u8) -> u64
    ensures { result ≡ followers (tasks_of set.now) task }
{
    (usize::from(task) + 1..set.count())
        .map(|follower| task_load(set, follower))
        .sum()
}

impl<'a> Planner<'a> {
    // Whether a task is placed beforehand.
    fn goes_first(&self, set: &TaskSet, task: u8) -> bool
        ensures { result ≡ goes_beforehand (tasks_of set.now) (seen self.now) task }
    {
        let theta = threshold_of(set);
        // `as` below: there is no From into u64 for a usize
        let free = self.processors.len().saturating_sub(self.reserve.len());
        is_heavy(task_load(set, usize::from(task)), theta)
            && free.checked_sub(1).is_some_and(|others| followers_load(set, task)
                <= others as u64 * theta)
    }

    // Places a task whole on the smallest processor that is not taken, which goes to the front of the reserve.
    fn place_first(&mut self, set: &TaskSet, task: u8)
        requires so_far { Visiting (seen self.old) task }
        requires free { length (seen self.old).reserve < length (seen self.old).processors }
        ensures { seen self.new ≡ beforehand (tasks_of set.now) (seen self.old) task }
    {
        let number = self.reserve.len();
        self.processors[number] = Processor {
            load: task_load(set, usize::from(task)),
            standing: Standing::Reserved,
        };
        self.reserve.push_front(number).unwrap();
        // `as`: one of 8 processors, so it is proved to fit, and plainer than a TryFrom that is unwrapped
        self.parts
            .push(Piece::of_task(set, task).on(number as u8))
            .unwrap();
    }

    // Visits a task: it is placed beforehand, or becomes a piece.
    pub(super) fn visit(&mut self, set: &TaskSet, task: u8)
        requires so_far { Visiting (seen self.old) task }
        requires known { task < count_of set.now }
        ensures { seen self.new ≡ visited (tasks_of set.now) (seen self.old) task }
    {
        if self.goes_first(set, task) {
            self.place_first(set, task);
        } else {
            self.pieces.push_front(Piece::of_task(set, task)).unwrap();
        }
    }
}
