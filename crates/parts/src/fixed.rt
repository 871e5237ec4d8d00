// Lists of a fixed capacity, in memory of their own.
ghost use Rattle.std.specs.Prelude.{◌≡◌, ◌≤◌, length, ⊤};

use std::alloc::AllocError;

// Up to N elements, in the order in which they were listed. The kit's vector of fixed capacity cannot be copied, and plans are.
pub struct FixedList<T, const N: usize> {
    items: [T; N],
    count: usize,
    ghost sized: { length items ≡ N },
    ghost few: { count ≤ N },
}

impl<T: Copy, const N: usize> Copy for FixedList<T, N> {}

// By hand, since a derive can't copy a type parameter's ghost fields.
impl<T: Copy, const N: usize> Clone for FixedList<T, N> {
    ghost is_clone = { λ list copy. copy ≡ list };

    ghost is_infallible = { λ _. ⊤ };

    fn clone(&self) -> Result<Self, AllocError> {
        Ok(*self)
    }
}

pub mod methods;
