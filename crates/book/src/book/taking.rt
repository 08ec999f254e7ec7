// How a taker trades with the rows of a book.
ghost use Rattle.std.specs.Prelude.{◌≡◌, ◌≤◌, length};
ghost use Rattle.rolls.specs.Rolls.{room};
ghost use Rattle.book.specs.Lists.{found};
ghost use Rattle.book.specs.Books.{rows};
ghost use Rattle.book.specs.Taking.{in_reach, Took};

use crate::book::Book;
use crate::row::{Row, Taker, Trade};
use rolls::roll::Roll;

impl Book {
    // The best row within the reach of a taker.
    pub fn best_in_reach(&self, taker: Taker) -> Option<Row>
        ensures { result ≡ found (in_reach taker) (rows self.now) }
    {
        self.best(taker.series, taker.side.opposite())
            .filter(|best| taker.reaches(best.display))
    }

    // A taker of `size` contracts trades with the best row in its reach, at that row's display price, until it has nothing left or no row
    // is in reach. A held order that traded is due at `due`. The roll gains the trades: what is left of the taker.
    pub fn take(&mut self, taker: Taker, size: u32, due: u32, trades: &mut Roll<Trade>) -> u32
        requires { length (rows self.old) ≤ room trades.old }
        ensures { Took due taker size result (rows self.old) (rows self.new) trades.old trades.new }
    {
        let mut left = size;
        while left > 0
            && let Some(best) = self.best_in_reach(taker)
        {
            let traded = left.min(best.size);
            trades.push(taker.trade_with(best, traded));
            self.settle(best.number, traded, due);
            left -= traded;
        }
        left
    }
}
