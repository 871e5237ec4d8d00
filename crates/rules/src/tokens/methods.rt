// What a token bucket does.
ghost use Rattle.std.specs.Prelude.{◌≡◌, ℕ, ◌≤◌};
ghost use Rattle.rules.specs.Tokens.{full_curve, tokens_curve, tokens_left};
ghost use Rattle.rules.specs.Refills.{full_lawful, rest_lawful};

use crate::regulator::Regulator;
use crate::tokens::Tokens;
use tasks::arrival::TooSoon;

impl Tokens {
    // A full bucket.
    pub(crate) fn new(size: u32, refill: u32) -> Tokens
        requires { (1 ≤ size) × ((size ≤ 1000) × ((1 ≤ refill) × (refill ≤ 100000))) }
        ensures curves { (L : ℕ) → tokens_curve result L ≡ full_curve size refill L }
        ensures full { (L : ℕ) → 1 ≤ L → tokens_left result L ≡ full_curve size refill L }
    {
        Tokens {
            size,
            refill,
            held: size,
            due: refill,
            gave: false,
        }
    }
}

impl Regulator for Tokens {
    ghost curve = { tokens_curve };

    ghost left = { tokens_left };

    ghost lawful = { λ t. full_lawful t.refill t.timed t.size t.sized };

    ghost left_lawful = { λ t. rest_lawful t.refill t.timed t.size t.held t.due t.gave t.within t.rested };

    fn fill(&mut self) {
        *self = Tokens::new(self.size, self.refill);
    }

    fn curve_at(&self, length: u64) -> u64 {
        // without overflow: a sum that is cut off is above every length
        length.min(u64::from(self.size).saturating_add(
            length.saturating_sub(1) / u64::from(self.refill),
        ))
    }

    #[tactic(auto, using(crate::specs::Refills::open_from))]
    fn is_open(&self) -> bool {
        !self.gave && self.held > 0
    }

    #[tactic(auto, using(crate::specs::Refills::open_means, crate::specs::Refills::gives))]
    fn take(&mut self) -> Result<(), TooSoon> {
        if !self.is_open() {
            return Err(TooSoon);
        }
        self.held -= 1;
        self.gave = true;
        Ok(())
    }

    #[tactic(auto, using(crate::specs::Refills::ticks_full, crate::specs::Refills::ticks_back))]
    fn tick(&mut self) {
        self.gave = false;
        if self.held < self.size {
            if self.due > 1 {
                self.due -= 1;
            } else {
                self.held += 1;
                self.due = self.refill;
            }
        }
    }
}
