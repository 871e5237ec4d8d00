// What limits the releases of one task.
ghost use Rattle.std.specs.Prelude.{◌≡◌, ℕ, not, is_ok, ◌==◌};
ghost use Rattle.schedule.specs.Curves.{Curve};
ghost use Rattle.tasks.specs.Arrivals.{Left};
ghost use Rattle.rules.specs.Regulators.{SameCurve, Refilled, Taken, Ticked};

use tasks::arrival::TooSoon;

// A regulator of one task: a curve, which never changes, and what is left of it. `curve length` limits the releases that are
// admitted in `length` successive ticks, and `left length`, from length 1 on, those still to be admitted in the next `length`
// ticks, the present one included.
pub trait Regulator {
    ghost curve: { Self → ℕ → ℕ };

    ghost left: { Self → ℕ → ℕ };

    // What is left becomes the whole curve.
    fn fill(&mut self)
        ensures { SameCurve (curve self.old) (curve self.new) × Refilled (curve self.old) (left self.new) };

    // The curve at a length.
    fn curve_at(&self, length: u64) -> u64
        ensures { result ≡ curve self.now length };

    // Whether a release would be admitted in this tick.
    fn is_open(&self) -> bool
        ensures { result ≡ (left self.now 1 == 1) };

    // Admits a release in this tick, or refuses it and changes nothing. Each refuses by itself: a regulator is not bound to be asked first.
    fn take(&mut self) -> Result<(), TooSoon>
        ensures answer { is_ok result ≡ not (left self.old 1 == 0) }
        ensures curve_stays { SameCurve (curve self.old) (curve self.new) }
        ensures left_falls { Taken (is_ok result) (left self.old) (left self.new) };

    // One tick passes.
    fn tick(&mut self)
        ensures { SameCurve (curve self.old) (curve self.new) × Ticked (curve self.old) (left self.old) (left self.new) };

    ghost lawful: { (r : Self) → Curve (curve r) };

    ghost left_lawful: { (r : Self) → Left (curve r) (left r) };
}
