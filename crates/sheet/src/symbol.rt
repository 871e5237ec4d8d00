// What a byte is to a number.

// The least and the most that a number may be. Not the library's range, which can't be copied.
#[derive(Clone, Copy)]
pub struct Limits {
    pub least: u32,
    pub most: u32,
}

// What has to stand after a number.
#[derive(Clone, Copy, PartialEq, Eq)]
pub enum Stop {
    Slash,
    Space,
    LineFeed,
}

// What a byte is to a number of which some digits have been read.
#[derive(Clone, Copy, PartialEq, Eq)]
pub enum Symbol {
    Digit(u32),
    Stop(Stop),
    // a byte that is not allowed there
    Other,
}

pub mod classes;
