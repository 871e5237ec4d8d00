// Two arrival rules joined.
ghost use Rattle.std.specs.Prelude.{◌≡◌, min};
ghost use Rattle.tasks.specs.Arrivals.{AllSubadditive};
ghost use Rattle.rules.specs.Joins.{joined};
ghost use Rattle.rules.specs.Pacing.{AllPaced};
ghost use Rattle.rules.specs.Joining.{joined_lawful};
ghost use Rattle.std.proofs.Common.{rules};

use tasks::arrival::{ArrivalRule, TooSoon};

// Admits what both of its rules admit; a release that one of them refuses is asked of neither.
#[derive(Clone, Copy)]
pub struct Both<A, B> {
    first: A,
    second: B,
}

impl<A, B> Both<A, B> {
    pub fn new(first: A, second: B) -> Both<A, B>
        ensures { (result.first ≡ first) × (result.second ≡ second) }
    {
        Both { first, second }
    }
}

// A maker of its own beside `new`, which asks no bounds of its callers: the laws below speak of two rules.
impl<A: ArrivalRule, B: ArrivalRule> Both<A, B> {
    // The two rules joined. Where both have paced curves, the joined curves are paced again, and subadditive.
    pub fn join(first: A, second: B) -> Both<A, B>
        ensures made { (result.first ≡ first) × (result.second ≡ second) }
        ensures paced { AllPaced (A.curve first) → AllPaced (B.curve second) → AllPaced (joined (A.curve first) (B.curve second)) }
        ensures subadditive { AllPaced (A.curve first) → AllPaced (B.curve second) → AllSubadditive (joined (A.curve first) (B.curve second)) }
    {
        Both::new(first, second)
    }
}

impl<A: ArrivalRule, B: ArrivalRule> ArrivalRule for Both<A, B> {
    ghost curve = { λ r i L. min (A.curve r.first i L) (B.curve r.second i L) };

    ghost left = { λ r i L. min (A.left r.first i L) (B.left r.second i L) };

    ghost curves = { λ r i h. joined_lawful _ _ (A.ArrivalRule.curves r.first i h) (B.ArrivalRule.curves r.second i h) };

    ghost lefts = { Prim.search rules };

    fn fresh(&mut self) {
        self.first.fresh();
        self.second.fresh();
    }

    fn curve_at(&self, task: usize, length: u64) -> u64 {
        self.first
            .curve_at(task, length)
            .min(self.second.curve_at(task, length))
    }

    fn is_open(&self, task: usize) -> bool {
        self.first.is_open(task) && self.second.is_open(task)
    }

    fn admit(&mut self, task: usize) -> Result<(), TooSoon> {
        if !self.is_open(task) {
            return Err(TooSoon);
        }
        self.first.admit(task)?;
        self.second.admit(task)
    }

    fn advance(&mut self) {
        self.first.advance();
        self.second.advance();
    }
}
