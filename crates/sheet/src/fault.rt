// What a refusal shows, and the faults of a sheet's bytes.
ghost use Rattle.std.specs.Prelude.{◌≡◌, Some};
ghost use Rattle.sheet.specs.Faults.{letter, shown, fault_line};

use crate::cursor::MAX_BYTES;
use std::fmt;

// What refuses: a sheet's bytes, a task set, a plan, or a machine; or what a program has above or beside these, by its letter. Nothing
// here makes a refusal of such a layer.
#[derive(Clone, Copy, PartialEq, Eq, Debug)]
pub enum Layer {
    Sheet,
    Set,
    Plan,
    Machine,
    Other(char),
}

// A refusal as it is written: the layer that refused, and what the table of refusals has for the fault: a number and a place.
#[derive(Clone, Copy, PartialEq, Eq, Debug)]
pub struct Refusal {
    pub layer: Layer,
    // the number is the output's own: what went wrong is told by the enums of faults
    pub number: u8,
    pub place: u64,
}

impl Refusal {
    // The refusal of a layer with this number and place. The place is widened by `as`: there is no From into u64 for a usize.
    pub fn new(layer: Layer, number: u8, place: usize) -> Refusal
        ensures { result ≡ record { layer = layer; number = number; place = place } }
    {
        Refusal {
            layer,
            number,
            place: place as u64,
        }
    }
}

impl fmt::Display for Layer {
    ghost output = { λ layer. Some (letter layer) };

    fn fmt<W: fmt::Write>(&self, f: &mut fmt::Formatter<W>) -> fmt::Result {
        f.write_char(match *self {
            Layer::Sheet => 'S',
            Layer::Set => 'G',
            Layer::Plan => 'K',
            Layer::Machine => 'M',
            Layer::Other(letter) => letter,
        })
    }
}

// By hand, here and at each fault: what the derive of thiserror writes has no contract, and so no `output` to print by.
impl fmt::Display for Refusal {
    ghost output = { λ r. Some (fault_line r) };

    fn fmt<W: fmt::Write>(&self, f: &mut fmt::Formatter<W>) -> fmt::Result {
        let layer = self.layer;
        let number = self.number;
        let place = self.place;
        write!(f, "F {layer} {number} {place}")
    }
}

// What is wrong with the bytes of a sheet (layer S).
#[derive(Clone, Copy, PartialEq, Eq, Debug)]
pub enum SheetFault {
    // the input has more than 4,096 bytes
    Overlong,
    // a byte that is not allowed there, or an end that came too early
    Misspelt { at: usize },
    // a number outside its limits, named by its first digit
    OffScale { at: usize },
}

impl SheetFault {
    // Layer, number and place of the fault.
    pub fn refusal(&self) -> Refusal
        ensures { result ≡ shown self.now }
    {
        let (number, place) = match *self {
            SheetFault::Overlong => (1, MAX_BYTES),
            SheetFault::Misspelt { at } => (2, at),
            SheetFault::OffScale { at } => (3, at),
        };
        Refusal::new(Layer::Sheet, number, place)
    }
}

impl fmt::Display for SheetFault {
    ghost output = { λ f. Some (fault_line (shown f)) };

    fn fmt<W: fmt::Write>(&self, f: &mut fmt::Formatter<W>) -> fmt::Result {
        self.refusal().fmt(f)
    }
}
