// Arrival rules: how many releases of each task may be admitted.
ghost use Rattle.std.specs.Prelude.{◌≡◌, ℕ, ◌<◌, not, is_ok, ◌==◌};
ghost use Rattle.schedule.specs.Curves.{Curve};
ghost use Rattle.tasks.specs.Arrivals.{Left, as_numbered, as_long, SameCurves, Fresh, Admitted, Advanced};

// A release that an arrival rule does not admit.
#[derive(Clone, Copy, PartialEq, Eq, Debug)]
pub struct TooSoon;

// For each task a curve, which never changes, and what is left of it: `curve task length` limits the releases admitted in
// `length` successive ticks, and `left task length`, from length 1 on, those still to be admitted in the next `length`
// ticks, the present one included. The laws are asked of task numbers below 32.
pub trait ArrivalRule {
    ghost curve: { Self → ℕ → ℕ → ℕ };

    ghost left: { Self → ℕ → ℕ → ℕ };

    // What is left becomes the whole curve, for every task.
    fn fresh(&mut self)
        ensures { SameCurves (curve self.old) (curve self.new) × Fresh (curve self.old) (left self.new) };

    // The curve of a task at a length; a task above 31 is read as 31, a length above 1,000,000 as 1,000,000.
    fn curve_at(&self, task: usize, length: u64) -> u64
        ensures { result ≡ curve self.now (as_numbered task) (as_long length) };

    // Whether a release of the task would be admitted in this tick.
    fn is_open(&self, task: usize) -> bool
        ensures { result ≡ (left self.now (as_numbered task) 1 == 1) };

    // Admits a release of the task in this tick, or refuses it and changes nothing.
    fn admit(&mut self, task: usize) -> Result<(), TooSoon>
        ensures answer { is_ok result ≡ not (left self.old (as_numbered task) 1 == 0) }
        ensures curves_stay { SameCurves (curve self.old) (curve self.new) }
        ensures left_falls { Admitted (is_ok result) (as_numbered task) (left self.old) (left self.new) };

    // One tick passes.
    fn advance(&mut self)
        ensures { SameCurves (curve self.old) (curve self.new) × Advanced (curve self.old) (left self.old) (left self.new) };

    ghost curves: { (r : Self) (i : ℕ) → i < 32 → Curve (curve r i) };

    ghost lefts: { (r : Self) (i : ℕ) → i < 32 → Left (curve r i) (left r i) };
}
