// Callers of the book that test first and then act: each shows that what an operation requires can be met.
#![tactic(auto)]

ghost use Rattle.std.specs.Prelude.{◌≡◌, Bool};
ghost use Rattle.book.specs.Books.{rows};
ghost use Rattle.book.specs.Rows.{same_maker};
ghost use Rattle.book.specs.declared.row.Row.{Row as BookRow};
ghost use Rattle.book.specs.declared.row.Standing.TheVariants.{Quote};
ghost use Rattle.book_examples.specs.Callers.{moved_if, placed_if};

use book::book::Book;
use book::places::Wanted;
use book::row::{Row, Standing, Taker, Trade};
use rolls::roll::Roll;
use values::side::{Price, Side};

// Inserts a row where the book admits it: whether it did.
pub fn place(book: &mut Book, row: Row) -> bool
    ensures { rows book.new ≡ placed_if result row (rows book.old) }
{
    if book.admits(row) {
        book.insert(row);
        true
    } else {
        false
    }
}

// Moves a row's display price where it crosses nothing: whether it did.
pub fn move_on(book: &mut Book, number: u32, display: Price, due: u32) -> bool
    ensures { rows book.new ≡ moved_if result number display due (rows book.old) }
{
    if book.can_move(number, display, due) {
        book.move_display(number, display, due);
        true
    } else {
        false
    }
}

// Takes where the roll has room for a trade with each row: what is left, or nothing where it has none.
pub fn take(
    book: &mut Book,
    taker: Taker,
    size: u32,
    due: u32,
    trades: &mut Roll<Trade>,
) -> Option<u32> {
    (book.len() <= trades.free()).then(|| book.take(taker, size, due, trades))
}

// The quotes of a maker.
#[derive(Clone, Copy)]
pub struct QuotesOf(pub u8);

impl Wanted<Row> for QuotesOf {
    ghost wants = { λ s r. same_maker (Quote s.0) r.standing };

    fn wants(&self, item: Row) -> bool {
        matches!(item.standing, Standing::Quote { maker } if maker == self.0)
    }
}

#[cfg(test)]
mod tests {
    use super::*;
    use std::test::Fail;

    fn plain(number: u32, side: Side, display: Price, size: u32) -> Row {
        Row {
            number,
            series: 3,
            side,
            display,
            limit: display,
            size,
            standing: Standing::Plain,
        }
    }

    fn blank() -> Trade {
        Trade {
            series: 0,
            price: 0,
            size: 0,
            taker: 0,
            resting: 0,
        }
    }

    // The better row first: the higher bid, then the lower number. A bid at an offer's price is not admitted.
    #[test]
    fn ranks(rt: HostRuntime) -> Result<(), Fail> {
        let mut book = Book::new();
        assert!(rt; place(&mut book, plain(1, Side::Buy, 100, 5)));
        assert!(rt; place(&mut book, plain(2, Side::Buy, 101, 5)));
        assert!(rt; place(&mut book, plain(3, Side::Buy, 101, 5)));
        assert!(rt; place(&mut book, plain(4, Side::Sell, 105, 5)));
        assert!(rt; !place(&mut book, plain(5, Side::Buy, 105, 5)));
        assert!(rt; !place(&mut book, plain(2, Side::Buy, 90, 5)));
        assert!(rt; !place(&mut book, plain(6, Side::Buy, 90, 0)));
        assert_eq!(rt; book.len(), 4);
        let best = book.best(3, Side::Buy).ok_or("no bid")?;
        assert_eq!(rt; best.number, 2);
        let offer = book.best(3, Side::Sell).ok_or("no offer")?;
        assert_eq!(rt; offer.number, 4);
        assert!(rt; book.best(2, Side::Sell).is_none());
        assert!(rt; book.best(4, Side::Buy).is_none());
        Ok(())
    }

    // A taker trades with the best rows, at their display prices, and no further than its reach.
    #[test]
    fn trades(rt: HostRuntime) -> Result<(), Fail> {
        let mut book = Book::new();
        assert!(rt; place(&mut book, plain(1, Side::Buy, 100, 5)));
        assert!(rt; place(&mut book, plain(2, Side::Buy, 102, 4)));
        assert!(rt; place(&mut book, plain(3, Side::Buy, 99, 7)));
        let mut lent = [blank(); 8];
        let mut roll = Roll::new(&mut lent);
        let taker = Taker {
            number: 9,
            series: 3,
            side: Side::Sell,
            reach: 100,
        };
        let left = take(&mut book, taker, 20, 5000, &mut roll).ok_or("no room")?;
        assert_eq!(rt; left, 11);
        assert_eq!(rt; book.len(), 1);
        let made = roll.rows();
        assert!(rt; made.len() == 2);
        assert_eq!(rt; made[0].price, 102);
        assert_eq!(rt; made[0].resting, 2);
        assert_eq!(rt; made[1].price, 100);
        assert_eq!(rt; made[1].size, 5);
        assert_eq!(rt; made[1].taker, 9);
        Ok(())
    }

    // A trade makes a held order due anew; at its limit it is no longer due.
    #[test]
    fn dues(rt: HostRuntime) -> Result<(), Fail> {
        let mut book = Book::new();
        let held = Row {
            limit: 110,
            standing: Standing::Held {
                collar: 5,
                due: 1000,
            },
            ..plain(1, Side::Buy, 100, 5)
        };
        assert!(rt; place(&mut book, held));
        assert!(rt; place(&mut book, plain(2, Side::Sell, 108, 5)));
        assert_eq!(rt; book.earliest_due().ok_or("none due")?.moment, 1000);
        book.settle(1, 2, 1700);
        assert_eq!(rt; book.earliest_due().ok_or("none due")?.moment, 1700);
        assert!(rt; move_on(&mut book, 1, 105, 2700));
        assert_eq!(rt; book.earliest_due().ok_or("none due")?.moment, 2700);
        assert!(rt; !move_on(&mut book, 1, 110, 3700));
        assert_eq!(rt; book.withdraw(2).ok_or("no offer")?.size, 5);
        assert!(rt; move_on(&mut book, 1, 110, 3700));
        assert!(rt; book.earliest_due().is_none());
        let row = book.row(1).ok_or("gone")?;
        assert_eq!(rt; row.display, 110);
        assert_eq!(rt; row.size, 3);
        book.settle(1, 3, 0);
        assert_eq!(rt; book.len(), 0);
        Ok(())
    }

    // One quote for each maker, series and side; a maker's quotes by number.
    #[test]
    fn quotes(rt: HostRuntime) -> Result<(), Fail> {
        let mut book = Book::new();
        let quote = Row {
            standing: Standing::Quote { maker: 7 },
            ..plain(4, Side::Sell, 120, 5)
        };
        assert!(rt; place(&mut book, quote));
        assert!(rt; !place(&mut book, Row { number: 5, ..quote }));
        assert!(rt;
            place(
                &mut book,
                Row {
                    number: 3,
                    series: 9,
                    ..quote
                },
            )
        );
        assert!(rt; place(&mut book, plain(1, Side::Sell, 120, 5)));
        assert_eq!(rt; book.lowest(0, &QuotesOf(7)).ok_or("none")?.number, 3);
        assert_eq!(rt; book.lowest(4, &QuotesOf(7)).ok_or("none")?.number, 4);
        assert!(rt; book.lowest(5, &QuotesOf(7)).is_none());
        Ok(())
    }

    // 256 rows and no more, and a place freed is used again.
    #[test]
    fn fills(rt: HostRuntime) {
        let mut book = Book::new();
        for number in 1..=256 {
            assert!(rt; place(&mut book, plain(number, Side::Buy, 100, 1)));
        }
        assert!(rt; !place(&mut book, plain(900, Side::Buy, 100, 1)));
        assert!(rt; book.withdraw(17).is_some());
        assert!(rt; book.withdraw(17).is_none());
        assert!(rt; place(&mut book, plain(900, Side::Buy, 100, 1)));
        assert_eq!(rt; book.len(), 256);
    }
}
