// A list over lent memory.
ghost use Rattle.std.specs.Prelude.{◌≤◌, length};

// A list that is pushed to and taken from at its front, over memory that is lent to it. The elements stand in the first `count`
// places, the front one last. (A count beside a slice, and no Vec: memory is fixed, and one list serves every type of element.)
#[derive(Drop)]
pub struct FrontList<'a, T> {
    items: &'a mut [T],
    count: usize,
    ghost within: { count ≤ length items.now },
}

pub mod calls;
