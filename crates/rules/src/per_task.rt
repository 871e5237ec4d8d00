// A regulator for each task number: the arrival rule that they make.
ghost use Rattle.std.specs.Prelude.{◌≡◌, length, ⊤};

use std::alloc::AllocError;

// The regulators of tasks 0 to 31.
pub struct PerTask<G> {
    regulators: [G; 32],
    ghost wide: { length regulators ≡ 32 },
}

// By hand, since a derive over a type parameter takes no ghost field.
impl<G: Copy> Clone for PerTask<G> {
    ghost is_clone = { λ x y. y ≡ x };

    ghost is_infallible = { λ _. ⊤ };

    fn clone(&self) -> Result<PerTask<G>, AllocError> {
        Ok(*self)
    }
}

impl<G: Copy> Copy for PerTask<G> {}

// The first is the regulator of task 0.
impl<G> From<[G; 32]> for PerTask<G> {
    ghost from_gives = { λ regulators r. r.regulators ≡ regulators };

    fn from(regulators: [G; 32]) -> PerTask<G> {
        PerTask { regulators }
    }
}

pub mod rule;
