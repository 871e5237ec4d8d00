// Priority orders: which of two tasks goes before the other.
ghost use Rattle.std.specs.Prelude.{◌≡◌, Bool, T, ◌⊎◌, ◌≢◌};
ghost use Rattle.tasks.specs.declared.order.TaskKey.{TaskKey};
ghost use Rattle.tasks.specs.Orders.{Told, as_asked};

// A task as a priority order is told it.
#[derive(Clone, Copy, PartialEq, Eq, Debug)]
pub struct TaskKey {
    pub number: usize,
    pub period: u32,
}

// A priority order is the relation `before`. Its laws are asked of tasks with numbers below 32 and periods on the scale.
pub trait PriorityOrder {
    ghost before: { Self → TaskKey → TaskKey → Bool };

    // Whether the first goes before the second; a number above 31 is read as 31.
    fn goes_before(&self, first: TaskKey, second: TaskKey) -> bool
        ensures { result ≡ before self.now (as_asked first) (as_asked second) };

    // no task goes before itself
    ghost irreflexive: { (o : Self) (a : TaskKey) → Told a → T (before o a a) → ⊥ };

    // of two tasks with different numbers one goes before the other
    ghost connected: { (o : Self) (a b : TaskKey) → Told a → Told b → (a.number ≢ b.number) → T (before o a b) ⊎ T (before o b a) };

    // and only one
    ghost asymmetric: { (o : Self) (a b : TaskKey) → Told a → Told b → (a.number ≢ b.number) → T (before o a b) → T (before o b a) → ⊥ };

    // over tasks of three different numbers
    ghost transitive: { (o : Self) (a b c : TaskKey) → Told a → Told b → Told c → (a.number ≢ b.number) → (b.number ≢ c.number) → (a.number ≢ c.number) → T (before o a b) → T (before o b c) → T (before o a c) };
}
