// Releases in pairs as an arrival rule.
ghost use Rattle.std.specs.Prelude.{◌≡◌, ℕ, ◌<◌, min};
ghost use Rattle.schedule.specs.Curves.{Subadditive};
ghost use Rattle.tasks.specs.Numbers.{rounded_up};
ghost use Rattle.arrivals.specs.Pairs.{pair_curve, pair_left, paired_curve, paired_left};
ghost use Rattle.arrivals.specs.Places.{places_lawful, places_left};

use crate::paired::{Pair, Paired};
use rules::per_task::PerTask;
use rules::regulator::Regulator;
use tasks::arrival::TooSoon;

const PERIOD: u32 = 7;

impl Pair {
    // Both places are free.
    fn new() -> Pair
        ensures { (L : ℕ) → pair_left result L ≡ pair_curve result L }
    {
        Pair {
            sooner: 0,
            later: 1,
        }
    }
}

impl Regulator for Pair {
    ghost curve = { pair_curve };

    ghost left = { pair_left };

    ghost lawful = { λ p. places_lawful };

    ghost left_lawful = { λ p. places_left p.sooner p.later p.sorted p.close };

    fn fill(&mut self) {
        *self = Pair::new();
    }

    fn curve_at(&self, length: u64) -> u64 {
        let period = u64::from(PERIOD);
        length.div_ceil(period) + length.saturating_sub(1).div_ceil(period)
    }

    fn is_open(&self) -> bool {
        self.sooner == 0
    }

    fn take(&mut self) -> Result<(), TooSoon> {
        if self.sooner > 0 {
            return Err(TooSoon);
        }
        self.sooner = self.later;
        self.later = PERIOD;
        Ok(())
    }

    fn tick(&mut self) {
        self.sooner = self.sooner.saturating_sub(1);
        self.later = self.later.saturating_sub(1).max(1);
    }
}

// Both places of every task are free. Joined with releases spaced by 3 ticks the curve is not subadditive.
pub fn free_pairs() -> Paired
    ensures fresh { (i : ℕ) (L : ℕ) → i < 32 → paired_left result i L ≡ paired_curve result i L }
    ensures not_subadditive { Subadditive (λ L. min (rounded_up L 3) (paired_curve result 0 L)) → ⊥ }
{
    PerTask::from([Pair::new(); 32])
}
