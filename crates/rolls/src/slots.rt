// Rows that a caller lent, and how many of them are filled: the market takes no memory of its own for them.
ghost use Rattle.std.specs.Prelude.{◌≡◌, ◌<◌, ◌≤◌, [], ◌∷◌, length, slice_set};
ghost use Rattle.rolls.specs.Slots.{held, Extends};

#[derive(Drop)]
pub struct Slots<'a, T: Copy> {
    pub lent: &'a mut [T],
    pub count: usize,
}

// Writes one row of a stretch.
fn put<T: Copy>(stretch: &mut [T], at: usize, row: T)
    requires { at < length stretch.old }
    ensures { stretch.new ≡ slice_set stretch.old at row }
{
    stretch[at] = row;
}

impl<'a, T: Copy> Slots<'a, T> {
    // One row more, behind those that are filled.
    pub fn push(&mut self, row: T)
        requires { self.old.count < length self.old.lent.now }
        ensures { Extends self.old self.new (row ∷ []) }
    {
        let at = self.count;
        put(self.lent, at, row);
        self.count = at + 1;
    }

    // The rows that are filled.
    pub fn front(&self) -> &[T]
        requires { self.now.count ≤ length self.now.lent.now }
        ensures { result.now ≡ held self.now }
    {
        &self.lent[..self.count]
    }
}
