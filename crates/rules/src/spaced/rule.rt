// Spaced arrivals as an arrival rule.
ghost use Rattle.std.specs.Prelude.{◌≡◌, ℕ, ◌<◌, ◌≤◌};
ghost use Rattle.tasks.specs.Arrivals.{AllSubadditive};
ghost use Rattle.tasks.specs.Numbers.{rounded_up};
ghost use Rattle.tasks.specs.Sets.{period_of};
ghost use Rattle.rules.specs.Pacing.{AllPaced};
ghost use Rattle.rules.specs.Spacing.{Spaced, gap_curve, gap_left, spaced_curve, spaced_left};
ghost use Rattle.rules.specs.SpacingLemmas.{spaced_lawful, spaced_left_lawful};

use crate::per_task::PerTask;
use crate::regulator::Regulator;
use crate::spaced::{Gap, Spaced};
use std::array;
use tasks::arrival::TooSoon;
use tasks::set::TaskSet;

impl Gap {
    // Releases that are `period` ticks apart, the first one at once.
    fn new(period: u32) -> Gap
        requires { 1 ≤ period }
        ensures curve { (L : ℕ) → gap_curve result L ≡ rounded_up L period }
        ensures open { (L : ℕ) → gap_left result L ≡ rounded_up L period }
    {
        Gap { period, wait: 0 }
    }
}

impl Regulator for Gap {
    ghost curve = { gap_curve };

    ghost left = { gap_left };

    ghost lawful = { λ r. spaced_lawful r.period r.lasting };

    ghost left_lawful = { λ r. spaced_left_lawful r.period r.lasting r.wait };

    fn fill(&mut self) {
        self.wait = 0;
    }

    fn curve_at(&self, length: u64) -> u64 {
        length.div_ceil(u64::from(self.period))
    }

    fn is_open(&self) -> bool {
        self.wait == 0
    }

    fn take(&mut self) -> Result<(), TooSoon> {
        if self.wait > 0 {
            return Err(TooSoon);
        }
        self.wait = self.period;
        Ok(())
    }

    fn tick(&mut self) {
        self.wait = self.wait.saturating_sub(1);
    }
}

impl PerTask<Gap> {
    // Each task of the set spaced by its period, and open. The curves of every spaced rule are paced, and subadditive.
    #[tactic(auto, using(crate::specs::SpacingLemmas::all_spaced_paced, crate::specs::SpacingLemmas::all_spaced_subadditive))]
    pub fn new(set: &TaskSet) -> Spaced
        ensures curves { (i : ℕ) (L : ℕ) → i < 32 → spaced_curve result i L ≡ rounded_up L (period_of set.now i) }
        ensures fresh { (i : ℕ) (L : ℕ) → i < 32 → spaced_left result i L ≡ spaced_curve result i L }
        ensures paced { (rule : Spaced) → AllPaced (spaced_curve rule) }
        ensures subadditive { (rule : Spaced) → AllSubadditive (spaced_curve rule) }
    {
        PerTask::from(array::from_fn(|i| Gap::new(set.period(i))))
    }
}
