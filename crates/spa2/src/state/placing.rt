// Steps 2 and 3: a processor is chosen for the front piece, which is placed whole or cut.
ghost use Rattle.std.specs.Prelude.{◌≡◌, ◌<◌, true, false, length, IfSome, is_ok, MatchOption, MatchResult, Some, None};
ghost use Rattle.parts.specs.declared.fault.PlanFault.TheVariants.{Unplaced};
ghost use Rattle.spa2.specs.Placing.{tasks_of, chosen, after_choice, number_of, fits_whole, whole, split, turn, Ready, with_cut, with_parts};
ghost use Rattle.spa2.specs.Seen.{seen};

use crate::load::{cut_cost, threshold_of};
use crate::piece::{Piece, Remainder};
use crate::state::{Choice, Planner, Processor, Standing};
use parts::fault::PlanFault;
use tasks::set::TaskSet;

impl Choice {
    // The number of the processor.
    fn number(self) -> usize
        ensures { result ≡ number_of self }
    {
        match self {
            Choice::Normal(number) | Choice::Spare(number) => number,
        }
    }
}

impl<'a> Planner<'a> {
    // The processor that the next piece goes to, if there is one. One of the reserve is taken from there.
    fn choose(&mut self) -> Option<Choice>
        ensures value { result ≡ chosen (seen self.old) }
        ensures after { MatchOption result (seen self.new ≡ seen self.old) (λ c. seen self.new ≡ after_choice (seen self.old) c) }
        ensures known { IfSome result (λ c. number_of c < length (seen self.new).processors) }
    {
        // tried with `or_else`; what its closure, which changes the reserve, leaves of the planner stayed open
        if let Some(seat) = self.least_loaded() {
            return Some(Choice::Normal(seat.number));
        }
        self.reserve.take_front().map(Choice::Spare)
    }

    // Lists the part that was cut off, where there is any of it.
    fn list_cut(&mut self, first: Piece, processor: u8)
        requires { length (seen self.old).parts < 64 }
        ensures { seen self.new ≡ with_parts (seen self.old) (with_cut first.task processor first.cost (seen self.old).parts) }
    {
        if first.cost >= 1 {
            self.parts.push(first.on(processor)).unwrap();
        }
    }

    // Places a piece whole. A processor of the reserve returns to its front.
    fn place_whole(&mut self, set: &TaskSet, piece: Piece, choice: Choice)
        requires ready { Ready (seen self.old) choice }
        requires whole { fits_whole (tasks_of set.now) (seen self.old) piece (number_of choice) ≡ true }
        ensures { seen self.new ≡ whole (tasks_of set.now) (seen self.old) piece choice }
    {
        let number = choice.number();
        self.processors[number].load += piece.load(set);
        // `as`, as below: one of 8 processors, so it is proved to fit, and plainer than a TryFrom that is unwrapped
        self.parts.push(piece.on(number as u8)).unwrap();
        if let Choice::Spare(number) = choice {
            self.reserve.push_front(number).unwrap();
        }
    }

    // Places as much of a piece as its processor can take, which is then full. What is left goes in front.
    fn place_cut(&mut self, set: &TaskSet, piece: Piece, choice: Choice) -> Result<(), PlanFault>
        requires ready { Ready (seen self.old) choice }
        requires cut { fits_whole (tasks_of set.now) (seen self.old) piece (number_of choice) ≡ false }
        ensures done { is_ok result ≡ true }
        ensures after { seen self.new ≡ split (tasks_of set.now) (seen self.old) piece choice }
    {
        let number = choice.number();
        let old = self.processors[number];
        let period = set.period(usize::from(piece.task));
        let (first, rest) = piece.cut(cut_cost(old.load, threshold_of(set), period));
        self.processors[number] = Processor {
            load: old.load + first.load(set),
            standing: Standing::Full,
        };
        self.list_cut(first, number as u8);
        rest.put_back(&mut self.pieces).map_err(Remainder::give_up)
    }

    // A turn: a processor is chosen for the piece, which is placed there whole or cut. Without one the plan is refused.
    pub(super) fn turn(&mut self, set: &TaskSet, piece: Piece) -> Result<(), PlanFault>
        requires few { length (seen self.old).parts < 64 }
        requires room { length (seen self.old).pieces < 32 }
        ensures { MatchResult result (λ _. turn (tasks_of set.now) (seen self.old) piece ≡ Some (seen self.new)) (λ e. (turn (tasks_of set.now) (seen self.old) piece ≡ None) × (e ≡ Unplaced piece.task)) }
    {
        let choice = self.choose().ok_or(PlanFault::Unplaced {
            task: usize::from(piece.task),
        })?;
        let old = self.processors[choice.number()];
        if old.load.saturating_add(piece.load(set)) > threshold_of(set) {
            return self.place_cut(set, piece, choice);
        }
        self.place_whole(set, piece, choice);
        Ok(())
    }
}
