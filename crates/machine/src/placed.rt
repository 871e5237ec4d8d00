// A part with its window placed in the life of its job.

// The part may run from `begin` up to, and not at, `end`, both counted in ticks from the release. `next` is the task's next part:
// a link by index, as `first` of a layout is, since parts stand in fixed memory and no Box may be had.
#[derive(Clone, Copy)]
pub struct PlacedPart {
    pub processor: u8,
    pub cost: u32,
    pub begin: u32,
    pub end: u32,
    pub next: Option<usize>,
}
