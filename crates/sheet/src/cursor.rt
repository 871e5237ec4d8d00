// A place in a sheet, with the bytes from there on.
ghost use Rattle.std.specs.Prelude.{◌+◌, ◌^◌, ◌<◌, length};

// The most bytes of an input.
pub const MAX_BYTES: usize = 4096;

// A place in an input, and the bytes that have not been read.
#[derive(Clone, Copy)]
pub struct Cursor<'a> {
    rest: &'a [u8],
    at: usize,
    ghost fits: { at + length rest.now < 2 ^ 64 },
}

pub mod reads;
