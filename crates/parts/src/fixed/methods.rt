// What can be done with a list of a fixed capacity.
ghost use Rattle.std.specs.Prelude.{◌≡◌, ◌<◌, ◌≤◌, [], ◌∷◌, ◌++◌, length, is_ok, IfErr, if◌then◌else◌, nat_lt, slice_set};
ghost use Rattle.parts.specs.Fixed.{elements};

use crate::fixed::FixedList;

impl<T: Copy, const N: usize> FixedList<T, N> {
    // A list of nothing. The value fills the places that no element has.
    pub fn filled(unused: T) -> FixedList<T, N>
        ensures { elements result ≡ [] }
    {
        FixedList {
            items: [unused; N],
            count: 0,
        }
    }

    // How many elements the list has.
    pub fn len(&self) -> usize
        ensures { result ≡ length (elements self.now) }
    {
        self.as_slice().len()
    }

    // The elements in their order.
    pub fn as_slice(&self) -> &[T]
        ensures { result.now ≡ elements self.now }
    {
        let places = &self.items[..];
        &places[0..self.count]
    }

    // Lists one element more, or gives it back where there are N.
    pub fn push(&mut self, element: T) -> Result<(), T>
        ensures answer { is_ok result ≡ nat_lt (length (elements self.old)) N }
        ensures after { elements self.new ≡ (if is_ok result then elements self.old ++ (element ∷ []) else elements self.old) }
        ensures refused { IfErr result (λ x. x ≡ element) }
    {
        let count = self.count;
        if count >= N {
            return Err(element);
        }
        self.items[count] = element;
        self.count = count + 1;
        Ok(())
    }

    // Puts another element in the place of the one at `index`; past the last element, nothing.
    pub fn replace(&mut self, index: usize, element: T)
        ensures { elements self.new ≡ slice_set (elements self.old) index element }
    {
        if index < self.count {
            self.items[index] = element;
        }
    }
}
