// The faults of a task set.
ghost use Rattle.std.specs.Prelude.{◌≡◌, Some};
ghost use Rattle.sheet.specs.Faults.{fault_line};
ghost use Rattle.tasks.specs.Faults.{shown};
ghost use Rattle.tasks.specs.declared.fault.SetFault.TheVariants.{Sheet};

use sheet::fault::{Layer, Refusal, SheetFault};
use std::fmt;

// What is wrong with a task set (layer G), or with the sheet that it was read from.
#[derive(Clone, Copy, PartialEq, Eq, Debug)]
pub enum SetFault {
    // the fault of the sheet's bytes, whole
    Sheet(SheetFault),
    // a period, a cost or a count outside its limits; a count has the place 0, as the rules write it
    OffScale { task: usize },
    // a period below the one before it
    Falling { task: usize },
    // a cost above its period
    Overfull { task: usize },
}

// By hand, since a derived From or Display promises nothing of what it makes or writes.
impl From<SheetFault> for SetFault {
    ghost from_gives = { λ s r. r ≡ Sheet s };

    fn from(s: SheetFault) -> SetFault {
        SetFault::Sheet(s)
    }
}

impl SetFault {
    // Layer, number and place of the fault.
    pub fn refusal(&self) -> Refusal
        ensures { result ≡ shown self.now }
    {
        let (number, task) = match *self {
            SetFault::Sheet(s) => return s.refusal(),
            SetFault::OffScale { task } => (3, task),
            SetFault::Falling { task } => (4, task),
            SetFault::Overfull { task } => (5, task),
        };
        Refusal::new(Layer::Set, number, task)
    }
}

impl fmt::Display for SetFault {
    ghost output = { λ f. Some (fault_line (shown f)) };

    fn fmt<W: fmt::Write>(&self, f: &mut fmt::Formatter<W>) -> fmt::Result {
        self.refusal().fmt(f)
    }
}
