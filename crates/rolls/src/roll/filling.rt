// What is asked of a roll, and what is added to it.
ghost use Rattle.std.specs.Prelude.{◌≡◌, ◌<◌, [], ◌∷◌, length};
ghost use Rattle.rolls.specs.Rolls.{filled, room, Gains};

use crate::roll::Roll;
use crate::slots::Slots;

impl<'a, T: Copy> Roll<'a, T> {
    // A roll over the rows, none of them filled yet.
    pub fn new(lent: &'a mut [T]) -> Self
        ensures filled { filled result ≡ [] }
        ensures room { room result ≡ length lent.old }
        ensures place { result.slots.lent.ghost_name ≡ lent.entry.ghost_name }
    {
        Roll {
            slots: Slots { lent, count: 0 },
        }
    }

    // How many rows may still be added.
    pub fn free(&self) -> usize
        ensures { result ≡ room self.now }
    {
        self.slots.lent.len() - self.slots.count
    }

    // The rows added so far, the first one first.
    pub fn rows(&self) -> &[T]
        ensures { result.now ≡ filled self.now }
    {
        self.slots.front()
    }

    // One row more.
    pub fn push(&mut self, row: T)
        requires { 0 < room self.old }
        ensures { Gains self.old self.new (row ∷ []) }
    {
        self.slots.push(row);
    }
}
