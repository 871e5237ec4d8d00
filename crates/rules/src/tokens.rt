// The tokens of one task.
ghost use Rattle.std.specs.Prelude.{◌≡◌, ◌≤◌, false};

// The most tokens of a task.
pub const MAX_TOKENS: u32 = 1_000;

// A token bucket: it holds up to `size` tokens, gives one for each admission and at most one in each tick. While it is not full a
// token returns every `refill` ticks, counted from the tick in which it gave while it was full; the next one is due in `due` ticks.
#[derive(Clone, Copy)]
pub struct Tokens {
    size: u32,
    refill: u32,
    held: u32,
    due: u32,
    // whether it has given a token in this tick
    gave: bool,
    ghost sized: { 1 ≤ size },
    ghost small: { size ≤ 1000 },
    ghost timed: { 1 ≤ refill },
    ghost short: { refill ≤ 100000 },
    ghost within: { held ≤ size },
    ghost later: { 1 ≤ due },
    ghost soon: { due ≤ refill },
    ghost rested: { held ≡ size → due ≡ refill },
    ghost shut: { held ≡ size → gave ≡ false },
}

pub mod methods;
