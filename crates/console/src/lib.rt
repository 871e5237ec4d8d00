// What the programs share: reading a sheet from standard input, and a list of times as it is printed.
#![tactic(auto)]

ghost use Rattle.std.specs.Prelude.{◌≤◌, length, IfOk, Some};
ghost use Rattle.console.specs.Times.{times_text};

use std::io::Read;
use std::{fmt, io};

// One byte more than the longest sheet, so that a longer input shows.
pub const KEPT: usize = 4097;

// Reads standard input into the buffer until the input ends or the buffer is full; the answer is what was read.
pub fn read_input<'a>(rt: &HostRuntime, buffer: &'a mut [u8]) -> io::Result<&'a [u8]>
    ensures { IfOk result (λ read. length read.now ≤ length buffer.old) }
{
    let size = buffer.len();
    let mut filled = 0;
    let mut input = rt.stdin();
    // a while: how much one read brings is not known before it
    while filled < size {
        let got = input.read(&mut buffer[filled..size])?;
        if got == 0 {
            break;
        }
        filled += got;
    }
    Ok(&buffer[0..filled])
}

// Times as they are printed, each with a space before it.
#[derive(Clone, Copy)]
pub struct Times<'a>(pub &'a [u32]);

impl fmt::Display for Times<'_> {
    ghost output = { λ t. Some (times_text t.0.now) };

    fn fmt<W: fmt::Write>(&self, f: &mut fmt::Formatter<W>) -> fmt::Result {
        for time in self.0 {
            write!(f, " {time}")?;
        }
        Ok(())
    }
}
