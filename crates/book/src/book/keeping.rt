// What is asked of a book, and done to its rows.
ghost use Rattle.std.specs.Prelude.{◌≡◌, ◌<◌, ◌≤◌, true, [], length};
ghost use Rattle.book.specs.Lists.{every, head};
ghost use Rattle.book.specs.Rows.{agrees, sized, insert, without, row_of, best_of, settle, may_move, move_row, lowest, wanted_from};
ghost use Rattle.book.specs.Dues.{earliest};
ghost use Rattle.book.specs.Books.{rows, dues};

use crate::awaiting::Dues;
use crate::book::Book;
use crate::places::Wanted;
use crate::resting::{PLACES, Rows};
use crate::row::{Due, Row};
use values::side::{Price, Side};

impl Book {
    // A book in which nothing rests.
    pub fn new() -> Book
        ensures { rows result ≡ [] }
    {
        Book {
            resting: Rows::new(),
            awaiting: Dues::new(),
        }
    }

    // How many rows rest.
    pub fn len(&self) -> usize
        ensures count { result ≡ length (rows self.now) }
        ensures bound { result ≤ 256 }
    {
        self.resting.len()
    }

    // The row with a number.
    pub fn row(&self, number: u32) -> Option<Row>
        ensures { result ≡ row_of number (rows self.now) }
    {
        self.resting.row(number)
    }

    // Whether a row may be inserted: there is a place, no row has its number, it crosses none, it is no second quote of its maker on its
    // side of the series, and it has a size.
    pub fn admits(&self, row: Row) -> bool
        ensures room { result ≡ true → length (rows self.now) < 256 }
        ensures fits { result ≡ true → every (agrees row) (rows self.now) ≡ true }
        ensures some { result ≡ true → sized row ≡ true }
        ensures whole { length (rows self.now) < 256 → every (agrees row) (rows self.now) ≡ true → sized row ≡ true → result ≡ true }
    {
        self.len() < PLACES && row.size > 0 && self.resting.admits(row)
    }

    // Puts a row at its rank, and a held order into the due list.
    pub fn insert(&mut self, row: Row)
        requires room { length (rows self.old) < 256 }
        requires fits { every (agrees row) (rows self.old) ≡ true }
        requires some { sized row ≡ true }
        ensures { rows self.new ≡ insert row (rows self.old) }
    {
        self.resting.insert(row);
        self.awaiting.list(row.number, row.standing);
    }

    // Takes out the row with a number, and its due entry: what it was.
    pub fn withdraw(&mut self, number: u32) -> Option<Row>
        ensures answer { result ≡ row_of number (rows self.old) }
        ensures after { rows self.new ≡ without number (rows self.old) }
    {
        let row = self.resting.remove(number)?;
        self.awaiting.unlist(number, row.standing);
        Some(row)
    }

    // The best row on a side of a series.
    pub fn best(&self, series: u8, side: Side) -> Option<Row>
        ensures { result ≡ best_of series side (rows self.now) }
    {
        self.resting.best(series, side)
    }

    // Takes contracts off the row with a number, which leaves where none is left. A held order that stays is due at `due`.
    pub fn settle(&mut self, number: u32, by: u32, due: u32)
        ensures { rows self.new ≡ settle due by number (rows self.old) }
    {
        if let Some(row) = self.resting.settle(number, by, due)
            && by > 0
        {
            self.awaiting.unlist(number, row.standing);
            if by < row.size {
                self.awaiting.list(number, row.standing.renew(due));
            }
        }
    }

    // Whether the row with a number may be displayed at another price: it crosses no other row there. Where there is none, it may. (Number,
    // price and moment name one move, which is asked about and made: a record of it would be used twice.)
    pub fn can_move(&self, number: u32, display: Price, due: u32) -> bool
        ensures { result ≡ may_move number display due (rows self.now) }
    {
        self.row(number).is_none_or(|row| self.resting.admits_instead(row.moved_to(display, due)))
    }

    // Displays the row with a number at another price, at its new rank. A held order is due next at `due`, or becomes plain at its limit.
    pub fn move_display(&mut self, number: u32, display: Price, due: u32)
        requires { may_move number display due (rows self.old) ≡ true }
        ensures { rows self.new ≡ move_row number display due (rows self.old) }
    {
        if let Some(row) = self.withdraw(number) {
            self.insert(row.moved_to(display, due));
        }
    }

    // The due entry of the held order that is due first; of several at one moment, the lowest number.
    pub fn earliest_due(&self) -> Option<Due>
        ensures first { result ≡ earliest (rows self.now) }
        ensures listed { result ≡ head (dues self.now) }
    {
        self.awaiting.first()
    }

    // Of the rows from a number on that are wanted, the one with the lowest number.
    pub fn lowest<W: Wanted<Row>>(&self, from: u32, wanted: &W) -> Option<Row>
        ensures { result ≡ lowest (wanted_from (W.wants wanted.now) from) (rows self.now) }
    {
        self.resting.lowest(from, wanted)
    }
}
