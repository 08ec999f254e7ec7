// What is asked of the resting rows, and done to them.
ghost use Rattle.std.specs.Prelude.{◌≡◌, ◌<◌, ◌≤◌, true, [], length};
ghost use Rattle.std.specs.List.{position, remove};
ghost use Rattle.book.specs.Lists.{every};
ghost use Rattle.book.specs.Rows.{numbered, agrees, agrees_instead, sized, insert, without, row_of, best_of, settle, lowest, wanted_from};
ghost use Rattle.book.specs.Listings.{ranked};

use super::{PLACES, Rows};
use crate::places::{Wanted, close_place, open_place};
use crate::row::{Row, Standing};
use values::side::Side;

impl Rows {
    pub fn new() -> Rows
        ensures { ranked result ≡ [] }
    {
        // what stands in a slot that no row takes
        let none = Row {
            number: 0,
            series: 0,
            side: Side::Buy,
            display: 0,
            limit: 0,
            size: 0,
            standing: Standing::Plain,
        };
        Rows {
            slots: [none; PLACES],
            count: 0,
        }
    }

    pub fn len(&self) -> usize
        ensures { result ≡ length (ranked self.now) }
    {
        self.count
    }

    // The rows, in their order.
    fn rows(&self) -> &[Row]
        ensures { result.now ≡ ranked self.now }
    {
        &self.slots[..self.count]
    }

    // The place of the row with a number.
    fn place_of(&self, number: u32) -> Option<usize>
        ensures { result ≡ position (numbered number) (ranked self.now) }
    {
        self.rows().iter().position(|row| row.number == number)
    }

    // The row with a number.
    pub fn row(&self, number: u32) -> Option<Row>
        ensures { result ≡ row_of number (ranked self.now) }
    {
        self.rows().iter().find(|row| row.number == number).copied()
    }

    // Whether a row may rest together with each of the rows.
    pub fn admits(&self, row: Row) -> bool
        ensures { result ≡ every (agrees row) (ranked self.now) }
    {
        self.rows().iter().all(|other| row.agrees_with(other))
    }

    // Whether a row may rest together with each of the rows but the one that has its number.
    pub fn admits_instead(&self, row: Row) -> bool
        ensures { result ≡ every (agrees_instead row) (ranked self.now) }
    {
        self.rows().iter().all(|other| other.number == row.number || row.agrees_with(other))
    }

    // Puts a row at its rank.
    pub fn insert(&mut self, row: Row)
        requires room { length (ranked self.old) < 256 }
        requires fits { every (agrees row) (ranked self.old) ≡ true }
        requires some { sized row ≡ true }
        ensures { ranked self.new ≡ insert row (ranked self.old) }
    {
        let at = self
            .rows()
            .partition_point(|other| other.comes_before(&row));
        let end = self.count;
        open_place(&mut self.slots, at..end, row);
        self.count = end + 1;
    }

    // Takes out the row at a place.
    fn take_out(&mut self, at: usize)
        requires { at < length (ranked self.old) }
        ensures { ranked self.new ≡ remove (ranked self.old) at }
    {
        close_place(&mut self.slots, at..self.count);
        self.count -= 1;
    }

    // Takes out the row with a number.
    pub fn remove(&mut self, number: u32) -> Option<Row>
        ensures answer { result ≡ row_of number (ranked self.old) }
        ensures after { ranked self.new ≡ without number (ranked self.old) }
    {
        let at = self.place_of(number)?;
        let row = self.rows()[at];
        self.take_out(at);
        Some(row)
    }

    // The best row on a side of a series.
    pub fn best(&self, series: u8, side: Side) -> Option<Row>
        ensures { result ≡ best_of series side (ranked self.now) }
    {
        let rows = self.rows();
        let at = rows.partition_point(|row| row.stands_before(series, side));
        rows.get(at)
            .copied()
            .filter(|row| row.stands_at(series, side))
    }

    // Takes contracts off the row with a number, and the row out where none is left: what it was before.
    pub fn settle(&mut self, number: u32, by: u32, due: u32) -> Option<Row>
        ensures answer { result ≡ row_of number (ranked self.old) }
        ensures after { ranked self.new ≡ settle due by number (ranked self.old) }
    {
        let at = self.place_of(number)?;
        let row = self.rows()[at];
        if by > 0 {
            match row.after_trade(by, due) {
                Some(left) => self.slots[at] = left,
                None => self.take_out(at),
            }
        }
        Some(row)
    }

    // Of the rows from a number on that are wanted, the one with the lowest number.
    pub fn lowest<W: Wanted<Row>>(&self, from: u32, wanted: &W) -> Option<Row>
        ensures { result ≡ lowest (wanted_from (W.wants wanted.now) from) (ranked self.now) }
    {
        self.rows()
            .iter()
            .copied()
            .filter(|row| from <= row.number && wanted.wants(*row))
            .min_by_key(|row| row.number)
    }
}
