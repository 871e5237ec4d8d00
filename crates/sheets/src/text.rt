// The text of a plan sheet while it is written.
use parts::fixed::FixedList;

// The most bytes of a plan sheet: 64 parts have lines of 5, 322 and 898 bytes at most.
pub const MAX_TEXT: usize = 1225;

// Some text, at most as long as a plan sheet. A FixedList: the kit's string of fixed capacity would be one more crate to trust.
#[derive(Clone, Copy)]
pub struct Text {
    written: FixedList<u8, MAX_TEXT>,
}

// The lines of a plan sheet with a pair of numbers for each part: where it runs, a task and a processor, or how long, a cost and
// a window.
#[derive(Clone, Copy)]
pub enum Line {
    Places,
    Amounts,
}

pub mod writers;
