// Withdrawing rows by number.
ghost use Rattle.std.specs.Prelude.{◌≡◌, ◌<◌, ◌≤◌};
ghost use Rattle.rolls.specs.Rolls.{room};
ghost use Rattle.book.specs.Books.{rows};
ghost use Rattle.trading.specs.Desks.{highest, pull};
ghost use Rattle.trading.specs.Doing.{desk, Withdrawing, count};

use book::book::Book;
use book::places::Wanted;
use book::row::{Row, Withdrawal};
use rolls::roll::Roll;

// Withdraws every row that is wanted, the lowest number first. (It goes by number as `Pit::serve` does: one loop for both would take a
// closure, and its contract would have to say what each call leaves of the book.)
pub fn withdraw_all<W: Wanted<Row>>(book: &mut Book, wanted: &W, withdrawals: &mut Roll<Withdrawal>)
    requires room { count (W.wants wanted.now) (rows book.old) ≤ room withdrawals.old }
    requires numbers { highest (rows book.old) < 1000000 }
    ensures { Withdrawing (rows book.new) withdrawals.old withdrawals.new (pull (W.wants wanted.now) (desk (rows book.old))) }
{
    let mut from = 1;
    while let Some(row) = book.lowest(from, wanted) {
        book.withdraw(row.number);
        withdrawals.push(row.withdrawal());
        from = row.number + 1;
    }
}
