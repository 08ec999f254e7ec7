// The pit: where a call trades.
ghost use Rattle.std.specs.Prelude.{◌<◌, ◌≤◌, length};
ghost use Rattle.rolls.specs.Rolls.{room};
ghost use Rattle.book.specs.Books.{rows};
ghost use Rattle.trading.specs.Desks.{highest};

use book::book::Book;
use book::row::Trade;
use rolls::roll::Roll;

// The rows of a book while a call trades in them, and the roll that gains the trades. The roll has room for a trade with each row, and
// the rows' numbers are below 1,000,000.
#[derive(Drop)]
pub struct Pit<'a, 'b> {
    pub book: &'a mut Book,
    pub trades: &'a mut Roll<'b, Trade>,
    pub ghost room: { length (rows book.now) ≤ room trades.now },
    pub ghost numbers: { highest (rows book.now) < 1000000 },
}
