// Pieces of tasks, and what a cut leaves of one.
ghost use Rattle.std.specs.Prelude.{◌≡◌, ◌-◌, ◌*◌, ◌≤◌, min, ◌∷◌, length, is_ok, IfErr, if◌then◌else◌, nat_lt};
ghost use Rattle.parts.specs.declared.fault.PlanFault.TheVariants.{Unplaced};
ghost use Rattle.tasks.specs.Sets.{period_of, cost_of};
ghost use Rattle.spa2.specs.Loads.{load_of};
ghost use Rattle.spa2.specs.Placing.{placed};
ghost use Rattle.front.specs.Fronts.{listed, room};

use crate::load::load;
use front::lists::FrontList;
use parts::fault::PlanFault;
use schedule::Part;
use tasks::set::TaskSet;

// What is yet to be placed of a task: the whole of it, or what a cut has left.
#[derive(Clone, Copy)]
pub struct Piece {
    pub task: u8,
    pub cost: u32,
}

// What a cut leaves of a piece. Only a cut makes one, and it cannot be let go or copied: it is put back, or given up with the
// plan.
pub struct Remainder {
    piece: Piece,
}

impl Piece {
    // The whole of a task.
    pub(crate) fn of_task(set: &TaskSet, task: u8) -> Piece
        ensures { result ≡ record { task = task; cost = cost_of set.now task } }
    {
        Piece {
            task,
            cost: set.cost(usize::from(task)),
        }
    }

    // The piece as a part on a processor, which gets its window later.
    pub(crate) fn on(self, processor: u8) -> Part
        ensures { result ≡ placed self.task processor self.cost }
    {
        Part {
            task: self.task,
            processor,
            cost: self.cost,
            window: 0,
        }
    }

    // The load of the piece, in every period of its task.
    pub(crate) fn load(self, set: &TaskSet) -> u64
        ensures value { result ≡ load_of self.cost (period_of set.now self.task) }
        ensures bound { result ≤ self.cost * 1000000 }
    {
        load(self.cost, set.period(usize::from(self.task)))
    }

    // Cuts a piece of the cost off, or of all that there is, and leaves the rest.
    pub fn cut(self, cost: u32) -> (Piece, Remainder)
        ensures first { result.0 ≡ record { task = self.task; cost = min self.cost cost } }
        ensures rest { result.1.piece ≡ record { task = self.task; cost = self.cost - cost } }
    {
        let first = Piece {
            cost: self.cost.min(cost),
            ..self
        };
        let rest = Piece {
            cost: self.cost.saturating_sub(cost),
            ..self
        };
        (first, Remainder { piece: rest })
    }
}

impl Remainder {
    // Puts the rest of the cut task in front of the pieces, or gives it back where there is no room.
    pub fn put_back(self, pieces: &mut FrontList<'_, Piece>) -> Result<(), Remainder>
        ensures answer { is_ok result ≡ nat_lt (length (listed pieces.old)) (room pieces.old) }
        ensures after { listed pieces.new ≡ (if is_ok result then self.piece ∷ listed pieces.old else listed pieces.old) }
        ensures room { room pieces.new ≡ room pieces.old }
        ensures refused { IfErr result (λ rest. rest.piece ≡ self.piece) }
    {
        let Remainder { piece } = self;
        pieces
            .push_front(piece)
            .map_err(|piece| Remainder { piece })
    }

    // Gives the plan up, since the rest of its task has no place.
    pub fn give_up(self) -> PlanFault
        ensures { result ≡ Unplaced self.piece.task }
    {
        let Remainder { piece } = self;
        PlanFault::Unplaced {
            task: usize::from(piece.task),
        }
    }
}
