// What can be read at a cursor.
ghost use Rattle.std.specs.Prelude.{◌≡◌, ◌≤◌, false, is_ok, IfOk};
ghost use Rattle.sheet.specs.declared.fault.SheetFault.TheVariants.{Misspelt};
ghost use Rattle.sheet.specs.Reading.{Parses, expected, number, opened, ended};

use crate::cursor::{Cursor, MAX_BYTES};
use crate::fault::SheetFault;
use crate::symbol::classes::classify;
use crate::symbol::{Limits, Stop, Symbol};

// How long an input is; more than 4,096 bytes are refused. The readers need only the refusal: the length stays, since the
// function has been public with it.
pub fn length_of(bytes: &[u8]) -> Result<usize, SheetFault>
    ensures { result ≡ opened bytes.now }
{
    if bytes.len() > MAX_BYTES {
        return Err(SheetFault::Overlong);
    }
    Ok(bytes.len())
}

impl<'a> Cursor<'a> {
    // The start of an input.
    pub fn new(bytes: &'a [u8]) -> Cursor<'a>
        ensures place { result.at ≡ 0 }
        ensures bytes { result.rest.now ≡ bytes.now }
    {
        Cursor { rest: bytes, at: 0 }
    }

    // The next byte, or the end, as a fault.
    pub fn misspelt(&self) -> SheetFault
        ensures { result ≡ Misspelt self.now.at }
    {
        SheetFault::Misspelt { at: self.at }
    }

    // Goes past the character, which has to be the next byte.
    pub fn expect(&mut self, mark: char) -> Result<(), SheetFault>
        ensures value { Parses (expected mark) self.old result self.new }
        ensures stays { is_ok result ≡ false → self.new ≡ self.old }
    {
        let at = self.at;
        match self.rest {
            [next, rest @ ..] if char::from(*next) == mark => {
                *self = Cursor { rest, at: at + 1 };
                Ok(())
            }
            _ => Err(self.misspelt()),
        }
    }

    // The end of the input, which has to be here.
    pub fn end(&self) -> Result<(), SheetFault>
        ensures { result ≡ ended self.now.at self.now.rest.now }
    {
        if !self.rest.is_empty() {
            return Err(self.misspelt());
        }
        Ok(())
    }

    // Reads the digits of a number up to the byte `stop`, and weighs it once that byte is seen, which is not passed.
    pub fn number(&mut self, limits: Limits, stop: Stop) -> Result<u32, SheetFault>
        ensures value { Parses (number limits stop) self.old result self.new }
        ensures stays { is_ok result ≡ false → self.new ≡ self.old }
        ensures within { IfOk result (λ v. (limits.least ≤ v) × (v ≤ limits.most)) }
    {
        let mut value = 0;
        for (digits, byte) in self.rest.iter().enumerate() {
            let at = self.at + digits;
            match classify(*byte, digits, value) {
                Symbol::Digit(digit) => value = value * 10 + digit,
                Symbol::Stop(found) if found == stop => {
                    if !limits.hold(value) {
                        return Err(SheetFault::OffScale { at: self.at });
                    }
                    *self = Cursor {
                        rest: &self.rest[digits..],
                        at,
                    };
                    return Ok(value);
                }
                _ => return Err(SheetFault::Misspelt { at }),
            }
        }
        Err(SheetFault::Misspelt {
            at: self.at + self.rest.len(),
        })
    }
}
