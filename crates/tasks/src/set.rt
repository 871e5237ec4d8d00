// Task sets.
ghost use Rattle.std.specs.Prelude.{◌≡◌, ℕ, ◌+◌, ◌<◌, ◌≤◌, length, take, All};
ghost use Rattle.std.specs.List.Sorted.{IsNonDecreasingBy};

// The most tasks of a set, and the most ticks of a period or a cost.
pub const MAX_TASKS: usize = 32;

pub const MAX_TICKS: u32 = 100_000;

// What a set says of one task, in ticks.
#[derive(Clone, Copy, PartialEq, Eq, Debug)]
pub struct Task {
    pub period: u32,
    pub cost: u32,
}

// 1 to 32 tasks: their periods never fall, and no cost is above its period. The count stands beside the array, since the laws speak of the
// tasks that it counts, and a set is made whole: a list that is pushed to would be filled one by one and never grow again.
#[derive(Clone, Copy)]
pub struct TaskSet {
    count: usize,
    tasks: [Task; MAX_TASKS],
    ghost some: { 1 ≤ count },
    ghost few: { count ≤ 32 },
    ghost wide: { length tasks ≡ 32 },
    ghost lasting: { All (λ t. t.cost ≤ t.period) (take count tasks) },
    ghost working: { All (λ t. 1 ≤ t.cost) (take count tasks) },
    ghost scaled: { All (λ t. t.period ≤ 100000) (take count tasks) },
    ghost rising: { IsNonDecreasingBy (λ t. t.period) (take count tasks) },
}

pub mod methods;
