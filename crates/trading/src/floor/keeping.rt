// What is asked of a floor, and done on it. Each operation leaves it at rest.
ghost use Rattle.std.specs.Prelude.{◌≡◌, ◌+◌, ◌<◌, ◌≤◌, true, not, [], length};
ghost use Rattle.rolls.specs.Rolls.{room};
ghost use Rattle.book.specs.Lists.{every};
ghost use Rattle.book.specs.Rows.{row_of, lowest, wanted_from};
ghost use Rattle.book.specs.Books.{rows};
ghost use Rattle.trading.specs.Desks.{pull, second_after, advance, enter, enter_now};
ghost use Rattle.trading.specs.Doing.{desk, Trading, Withdrawing, count, rivals, displays_in_reach};
ghost use Rattle.trading.specs.Floors.{rows_on, Leaves};

use crate::entering;
use crate::floor::Floor;
use crate::pit::Pit;
use crate::ticket::Ticket;
use crate::withdrawing::withdraw_all;
use book::book::Book;
use book::places::Wanted;
use book::row::{Row, Trade, Withdrawal};
use collars::pricing::Pricing;
use rolls::roll::Roll;

impl Floor {
    // Nothing rests, the clock stands at 0, and the first number is 1.
    pub fn new() -> Floor
        ensures rows { rows_on result ≡ [] }
        ensures clock { result.clock ≡ 0 }
        ensures next { result.next ≡ 1 }
    {
        Floor {
            book: Book::new(),
            clock: 0,
            next: 1,
        }
    }

    pub fn clock(&self) -> u32
        ensures { result ≡ self.now.clock }
    {
        self.clock
    }

    pub fn next(&self) -> u32
        ensures { result ≡ self.now.next }
    {
        self.next
    }

    // How many rows rest.
    pub fn len(&self) -> usize
        ensures count { result ≡ length (rows_on self.now) }
        ensures bound { result ≤ 256 }
    {
        self.book.len()
    }

    // The row with a number.
    pub fn row(&self, number: u32) -> Option<Row>
        ensures { result ≡ row_of number (rows_on self.now) }
    {
        self.book.row(number)
    }

    // Of the rows that are wanted, the one with the lowest number.
    pub fn first<W: Wanted<Row>>(&self, wanted: &W) -> Option<Row>
        ensures { result ≡ lowest (wanted_from (W.wants wanted.now) 0) (rows_on self.now) }
    {
        self.book.lowest(0, wanted)
    }

    // Withdraws every row that is wanted, the lowest number first.
    pub fn withdraw<W: Wanted<Row>>(&mut self, wanted: &W, withdrawals: &mut Roll<Withdrawal>)
        requires { count (W.wants wanted.now) (rows_on self.old) ≤ room withdrawals.old }
        ensures did { Withdrawing (rows_on self.new) withdrawals.old withdrawals.new (pull (W.wants wanted.now) (desk (rows_on self.old))) }
        ensures leaves { Leaves self.new self.old.clock self.old.next }
    {
        withdraw_all(&mut self.book, wanted, withdrawals);
    }

    // Moves the clock on.
    pub fn advance(&mut self, ms: u32, trades: &mut Roll<Trade>)
        requires room { length (rows_on self.old) ≤ room trades.old }
        requires step { ms ≤ 1000 }
        requires end { self.old.clock + ms ≤ 100000000 }
        ensures did { Trading (rows_on self.new) trades.old trades.new (advance (self.old.clock + ms) (desk (rows_on self.old))) }
        ensures leaves { Leaves self.new (self.old.clock + ms) self.old.next }
    {
        let clock = self.clock + ms;
        let mut pit = Pit {
            book: &mut self.book,
            trades,
        };
        pit.advance(clock);
        self.clock = clock;
    }

    // An order or quote that rests what it cannot trade enters with the next number.
    pub fn enter(&mut self, ticket: Ticket, pricing: Pricing, trades: &mut Roll<Trade>)
        requires place { length (rows_on self.old) < 256 }
        requires room { length (rows_on self.old) < room trades.old }
        requires number { ticket.number ≡ self.old.next }
        requires last { self.old.next < 1000000 }
        requires quotes { every (λ r. not (rivals ticket r)) (rows_on self.old) ≡ true }
        requires reach { displays_in_reach ticket pricing ≡ true }
        requires series { ticket.series < 64 }
        ensures did { Trading (rows_on self.new) trades.old trades.new (enter (second_after self.old.clock) ticket pricing (desk (rows_on self.old))) }
        ensures leaves { Leaves self.new self.old.clock (self.old.next + 1) }
    {
        let mut pit = Pit {
            book: &mut self.book,
            trades,
        };
        pit.enter(ticket, pricing, self.clock + 1_000);
        self.next += 1;
    }

    // An immediate order enters with the next number.
    pub fn enter_now(
        &mut self,
        ticket: Ticket,
        trades: &mut Roll<Trade>,
        withdrawals: &mut Roll<Withdrawal>,
    )
        requires room { length (rows_on self.old) ≤ room trades.old }
        requires spare { 0 < room withdrawals.old }
        requires last { self.old.next < 1000000 }
        ensures trades { Trading (rows_on self.new) trades.old trades.new (enter_now (second_after self.old.clock) ticket (desk (rows_on self.old))) }
        ensures withdrawals { Withdrawing (rows_on self.new) withdrawals.old withdrawals.new (enter_now (second_after self.old.clock) ticket (desk (rows_on self.old))) }
        ensures leaves { Leaves self.new self.old.clock (self.old.next + 1) }
    {
        entering::enter_now(
            &mut self.book,
            ticket,
            self.clock + 1_000,
            trades,
            withdrawals,
        );
        self.next += 1;
    }
}
