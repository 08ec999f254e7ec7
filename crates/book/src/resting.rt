// The rows that rest, in their order.
ghost use Rattle.std.specs.Prelude.{◌≡◌, ◌≤◌, length, take};
ghost use Rattle.book.specs.Rows.{Sound};

use crate::row::Row;

pub mod keeping;

// How many rows a book holds at most.
pub const PLACES: usize = 256;

// The first `count` slots are the rows: by series, bids before offers, the better row first. Numbers are unique, no bid is at or above
// an offer of its series, a maker has at most one quote on a side of a series, and no row is without size. An array, since the market
// takes no memory from the heap.
// An array and a count, since there is no heap; beside `Dues`, since a generic struct has no array of a type parameter.
#[derive(Drop)]
pub struct Rows {
    slots: [Row; PLACES],
    count: usize,
    ghost few: { count ≤ 256 },
    ghost whole: { length slots ≡ 256 },
    ghost sound: { Sound (take count slots) },
}
