// Places in slots of which the first ones are in use: one is opened by shifting, a gap is closed.
ghost use Rattle.std.specs.Prelude.{◌≡◌, ◌+◌, ◌-◌, ◌<◌, ◌≤◌, Bool, length, take, drop};
ghost use Rattle.std.specs.List.{insert, remove};

use std::ops::Range;

// Moves the elements at the places up by one, and puts `value` at the first of them.
pub(crate) fn open_place<T: Copy>(slots: &mut [T], places: Range<usize>, value: T)
    requires within { places.start ≤ places.end }
    requires room { places.end < length slots.old }
    ensures front { take (places.end + 1) slots.new ≡ insert (take places.end slots.old) places.start value }
    ensures rest { drop (places.end + 1) slots.new ≡ drop (places.end + 1) slots.old }
{
    let at = places.start;
    slots.copy_within(places, at + 1);
    slots[at] = value;
}

// Moves the elements at the places but the first down by one, over it.
pub(crate) fn close_place<T: Copy>(slots: &mut [T], places: Range<usize>)
    requires within { places.start < places.end }
    requires room { places.end ≤ length slots.old }
    ensures front { take (places.end - 1) slots.new ≡ remove (take places.end slots.old) places.start }
    ensures rest { drop places.end slots.new ≡ drop places.end slots.old }
{
    let at = places.start;
    slots.copy_within(at + 1..places.end, at);
}

// What a search looks for. A trait, and no closure: what a closure promises is a relation that says nothing of a row whose
// fields are out of range, and the clauses of `Book::lowest` and of those above need a test of every row.
pub trait Wanted<T> {
    ghost wants: { Self → T → Bool };

    fn wants(&self, item: T) -> bool
        ensures { result ≡ wants self.now item };
}
