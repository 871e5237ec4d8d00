// The three steps in turn: from a task set to the parts of its tasks.
ghost use Rattle.std.specs.Prelude.{◌≡◌, ℕ, ◌+◌, ◌≤◌, [], length};
ghost use Rattle.parts.specs.Parts.{parts_of};
ghost use Rattle.tasks.specs.Sets.{count_of};
ghost use Rattle.spa2.specs.Placing.{Visiting, tasks_of, visited_from, turns, outcome, weight};
ghost use Rattle.spa2.specs.Seen.{seen};

use crate::piece::Piece;
use crate::state::{Planner, Processor};
use front::lists::FrontList;
use parts::fault::PlanFault;
use parts::lists::PartList;
use tasks::set::TaskSet;

impl<'a> Planner<'a> {
    // A planner that has placed nothing, over memory for 32 pieces and 8 processor numbers.
    pub(crate) fn new(
        processors: &'a mut [Processor],
        pieces: &'a mut [Piece],
        reserve: &'a mut [usize],
    ) -> Planner<'a>
        requires few { length processors.old ≤ 8 }
        requires spacious { length pieces.old ≡ 32 }
        requires roomy { length reserve.old ≡ 8 }
        ensures { seen result ≡ record { processors = processors.entry.now; pieces = []; reserve = []; parts = [] } }
    {
        Planner {
            processors,
            pieces: FrontList::new(pieces),
            reserve: FrontList::new(reserve),
            parts: PartList::empty(),
        }
    }

    // Step 1 for all tasks.
    pub(crate) fn visit_all(&mut self, set: &TaskSet)
        requires { Visiting (seen self.old) 0 }
        ensures after { seen self.new ≡ visited_from (tasks_of set.now) (seen self.old) 0 (count_of set.now) }
        ensures enough { weight (seen self.new) ≤ count_of set.now + length (seen self.old).processors }
        ensures light { length (seen self.new).parts + weight (seen self.new) ≤ 64 }
    {
        // over numbers, not the set's `tasks()`: a visit asks for the tasks that follow by theirs.
        // `as`: at most 32 tasks, which is proved
        for task in 0..set.count() as u8 {
            self.visit(set, task);
        }
    }

    // Steps 2 and 3 until no piece is left, or one has no place.
    pub(crate) fn fill(&mut self, set: &TaskSet) -> Result<(), PlanFault>
        requires { length (seen self.old).parts + weight (seen self.old) ≤ 64 }
        ensures { (k : ℕ) → weight (seen self.old) ≤ k → turns (tasks_of set.now) k (seen self.old) ≡ outcome result (seen self.new).parts }
    {
        while let Some(piece) = self.pieces.take_front() {
            self.turn(set, piece)?;
        }
        Ok(())
    }

    // The parts that have been placed.
    pub(crate) fn parts(&self) -> PartList
        ensures { parts_of result ≡ (seen self.now).parts }
    {
        self.parts
    }
}
