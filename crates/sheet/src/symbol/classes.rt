// The classes of bytes, and which values are within limits.
ghost use Rattle.std.specs.Prelude.{◌≡◌};
ghost use Rattle.sheet.specs.Reading.{symbol_of, stops, within};

use crate::symbol::{Limits, Stop, Symbol};

// What `byte` is after `digits` digits of the number `value`: a seventh digit, one after a leading zero, and a stop before the
// first digit are not allowed. The scope has byte classes decided by ranges and a guard on the digits so far.
pub fn classify(byte: u8, digits: usize, value: u32) -> Symbol
    ensures { result ≡ symbol_of byte digits value }
{
    match byte {
        b'0'..=b'9' if digits == 0 || (value > 0 && digits < 6) => Symbol::Digit(u32::from(
            byte - b'0',
        )),
        b'/' if digits > 0 => Symbol::Stop(Stop::Slash),
        b' ' if digits > 0 => Symbol::Stop(Stop::Space),
        b'\n' if digits > 0 => Symbol::Stop(Stop::LineFeed),
        _ => Symbol::Other,
    }
}

impl Stop {
    // Whether the symbol is this stop.
    pub fn is(self, symbol: Symbol) -> bool
        ensures { result ≡ stops self symbol }
    {
        symbol == Symbol::Stop(self)
    }
}

impl Limits {
    // Whether the value is within the limits.
    pub(crate) fn hold(self, value: u32) -> bool
        ensures { result ≡ within self value }
    {
        (self.least..=self.most).contains(&value)
    }
}
