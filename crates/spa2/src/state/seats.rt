// Which of the processors is the least loaded.
ghost use Rattle.std.specs.Prelude.{◌≡◌};
ghost use Rattle.spa2.specs.Choices.{least_loaded_seat, LeastOpen};
ghost use Rattle.spa2.specs.Seen.{seen};

use crate::state::{Planner, Standing};

// An open processor: its number and its load. (The planner needs the number alone; the load is in what is promised of it.)
#[derive(Clone, Copy)]
pub struct Seat {
    pub number: usize,
    pub load: u64,
}

impl<'a> Planner<'a> {
    // The least loaded of the open processors, of equal loads the one with the smallest number.
    pub(crate) fn least_loaded(&self) -> Option<Seat>
        ensures value { result ≡ least_loaded_seat (seen self.now).processors }
        ensures least { LeastOpen (seen self.now).processors result }
    {
        self.processors
            .iter()
            .enumerate()
            .filter(|(_, processor)| processor.standing == Standing::Open)
            .min_by_key(|(_, processor)| processor.load)
            .map(|(number, processor)| Seat {
                number,
                load: processor.load,
            })
    }
}
