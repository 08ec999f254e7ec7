// The moments at which held orders are due.
ghost use Rattle.std.specs.Prelude.{◌≡◌, ◌≤◌, length, take};
ghost use Rattle.book.specs.Dues.{InTurn};

use crate::resting::PLACES;
use crate::row::Due;

pub mod keeping;

// The first `count` slots are the entries, the sooner first, no number twice. An array, since the market takes no memory from the heap;
// and one of its own beside that of the rows, since a generic struct cannot hold an array of its parameter.
// An array and a count, since there is no heap; beside `Rows`, since a generic struct has no array of a type parameter.
#[derive(Drop)]
pub struct Dues {
    slots: [Due; PLACES],
    count: usize,
    ghost few: { count ≤ 256 },
    ghost whole: { length slots ≡ 256 },
    ghost turns: { InTurn (take count slots) },
}
