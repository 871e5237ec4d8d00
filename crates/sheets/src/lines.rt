// The lines of a sheet.

// Two of a kind with a slash between them: numbers, or the limits of both.
#[derive(Clone, Copy, Default)]
pub struct Pair<T> {
    pub left: T,
    pub right: T,
}

pub mod items;
pub mod kinds;
