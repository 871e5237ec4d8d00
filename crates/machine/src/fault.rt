// The faults of a machine.
ghost use Rattle.std.specs.Prelude.{◌≡◌, Some};
ghost use Rattle.sheet.specs.Faults.{fault_line};
ghost use Rattle.machine.specs.Faults.{shown};
ghost use Rattle.machine.specs.declared.fault.MachineFault.TheVariants.{Plan};

use parts::fault::PlanFault;
use sheet::fault::{Layer, Refusal};
use std::fmt;

// What a machine refuses (layer M), or what is wrong with the plan under it.
#[derive(Clone, Copy, PartialEq, Eq, Debug)]
pub enum MachineFault {
    // the fault of the plan, whole
    Plan(PlanFault),
    // a task or a processor that there is not
    Unknown { number: usize },
    // the arrival rule does not admit the release yet
    TooSoon { task: usize },
    // there is no job to finish
    NoJob { task: usize },
    // the clock has come to its end
    WornOut,
    // the buffer is too short, and this many bytes are needed
    Cramped { needed: usize },
}

// By hand, since a derived From promises nothing of what it makes.
impl From<PlanFault> for MachineFault {
    ghost from_gives = { λ p r. r ≡ Plan p };

    fn from(p: PlanFault) -> MachineFault {
        MachineFault::Plan(p)
    }
}

impl MachineFault {
    // Layer, number and place of the fault.
    pub fn refusal(&self) -> Refusal
        ensures { result ≡ shown self.now }
    {
        let (number, place) = match *self {
            MachineFault::Plan(p) => return p.refusal(),
            MachineFault::Unknown { number } => (13, number),
            MachineFault::TooSoon { task } => (14, task),
            MachineFault::NoJob { task } => (15, task),
            MachineFault::WornOut => (16, 0),
            MachineFault::Cramped { needed } => (17, needed),
        };
        Refusal::new(Layer::Machine, number, place)
    }
}

// By hand, since the Display that thiserror derives has no `output`, which says what is written.
impl fmt::Display for MachineFault {
    ghost output = { λ f. Some (fault_line (shown f)) };

    fn fmt<W: fmt::Write>(&self, f: &mut fmt::Formatter<W>) -> fmt::Result {
        self.refusal().fmt(f)
    }
}
