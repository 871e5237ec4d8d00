// What can be done with a front list.
ghost use Rattle.std.specs.Prelude.{◌≡◌, [], ◌∷◌, length, is_ok, IfErr, if◌then◌else◌, nat_lt};
ghost use Rattle.front.specs.Fronts.{listed, room, Taken};

use crate::lists::FrontList;

impl<'a, T: Copy> FrontList<'a, T> {
    // A list of nothing, which can hold as many elements as the memory has places.
    pub fn new(items: &'a mut [T]) -> FrontList<'a, T>
        ensures empty { listed result ≡ [] }
        ensures room { room result ≡ length items.old }
    {
        FrontList { items, count: 0 }
    }

    // How many elements the list has.
    pub fn len(&self) -> usize
        ensures { result ≡ length (listed self.now) }
    {
        self.count
    }

    // Puts an element in front, or gives it back where there is no room.
    // (By an index: of a slice that `get_mut` has lent a proof knows only the length.)
    #[tactic(auto, using(crate::proofs::Memory::reversed_push))]
    pub fn push_front(&mut self, element: T) -> Result<(), T>
        ensures answer { is_ok result ≡ nat_lt (length (listed self.old)) (room self.old) }
        ensures after { listed self.new ≡ (if is_ok result then element ∷ listed self.old else listed self.old) }
        ensures room { room self.new ≡ room self.old }
        ensures refused { IfErr result (λ x. x ≡ element) }
    {
        if self.count == self.items.len() {
            return Err(element);
        }
        self.items[self.count] = element;
        self.count += 1;
        Ok(())
    }

    // Takes the front element, where there is one.
    pub fn take_front(&mut self) -> Option<T>
        ensures after { Taken (listed self.old) result (listed self.new) }
        ensures room { room self.new ≡ room self.old }
    {
        let last = self.count.checked_sub(1)?;
        self.count = last;
        Some(self.items[last])
    }
}
