// An order or quote enters: it trades, and its balance rests or lapses.
ghost use Rattle.std.specs.Prelude.{◌≡◌, ◌+◌, ◌<◌, ◌≤◌, true, false, not, [], reverse, length, drop, Option};
ghost use Rattle.rolls.specs.Rolls.{room, filled, Gains};
ghost use Rattle.book.specs.Lists.{every};
ghost use Rattle.book.specs.Books.{rows};
ghost use Rattle.book.specs.Rows.{agrees};
ghost use Rattle.collars.specs.Pricings.{display_of};
ghost use Rattle.trading.specs.Journals.{withdrawals_of};
ghost use Rattle.trading.specs.Desks.{highest, taker, last_price, held_at, standing_of, row_for, rest_rows, enter, lapse, enter_now};
ghost use Rattle.trading.specs.Doing.{desk, Trading, Withdrawing, rivals, displays_in_reach};
ghost use Rattle.trading.specs.Pits.{rows_in, desk_in, Deals};

use crate::pit::Pit;
use crate::ticket::Ticket;
use book::book::Book;
use book::row::{Row, Standing, Taker, Trade, Withdrawal};
use collars::pricing::Pricing;
use rolls::roll::Roll;
use values::side::Price;

// The price of the last trade that a roll gained after its first `before` rows.
fn last_price(trades: &Roll<Trade>, before: usize) -> Option<Price>
    ensures { result ≡ last_price (reverse (drop before (filled trades.now))) }
{
    trades.rows().get(before..)?.last().map(|trade| trade.price)
}

// It trades up to a price.
fn taker_of(ticket: Ticket, reach: Price) -> Taker
    ensures { result ≡ taker ticket reach }
{
    Taker {
        number: ticket.number,
        series: ticket.series,
        side: ticket.side,
        reach,
    }
}

// An order or quote as it arrives, and the moment at which it falls due if it is held.
#[derive(Clone, Copy)]
struct Arrival {
    ticket: Ticket,
    pricing: Pricing,
    due: u32,
}

impl Arrival {
    // What its balance rests as: a quote, or an order, which is held where it is collared and displays short of its limit.
    fn standing(&self, display: Price) -> Standing
        ensures { result ≡ standing_of self.now.due self.now.ticket self.now.pricing display }
    {
        match (self.ticket.maker, self.pricing.collar()) {
            (Some(maker), _) => Standing::Quote { maker },
            (None, Some(collar)) if display != self.ticket.limit => Standing::Held {
                collar,
                due: self.due,
            },
            (None, _) => Standing::Plain,
        }
    }

    // The row of its balance.
    fn row(&self, display: Price, size: u32) -> Row
        ensures { result ≡ row_for self.now.due self.now.ticket self.now.pricing display size }
    {
        Row {
            number: self.ticket.number,
            series: self.ticket.series,
            side: self.ticket.side,
            display,
            limit: self.ticket.limit,
            size,
            standing: self.standing(display),
        }
    }

    // Its balance of `left` contracts, if any, rests; `last` is the price of its last trade.
    fn rest(&self, book: &mut Book, last: Option<Price>, left: u32)
        requires room { 0 < left → length (rows book.old) < 256 }
        requires fits { 0 < left → every (agrees (row_for self.now.due self.now.ticket self.now.pricing (display_of self.now.pricing last) left)) (rows book.old) ≡ true }
        ensures { rows book.new ≡ rest_rows self.now.due self.now.ticket self.now.pricing last (rows book.old) left }
    {
        if left > 0 {
            let display = self.pricing.display(last);
            book.insert(self.row(display, left));
        }
    }
}

impl Pit<'_, '_> {
    // It trades within its reach, its balance rests, and its series is served. A held order that trades is due at `due`.
    pub fn enter(&mut self, ticket: Ticket, pricing: Pricing, due: u32)
        requires place { length (rows_in self.old) < 256 }
        requires room { length (rows_in self.old) < room self.old.trades.now }
        requires numbers { highest (rows_in self.old) < ticket.number }
        requires number { ticket.number < 1000000 }
        requires quotes { every (λ r. not (rivals ticket r)) (rows_in self.old) ≡ true }
        requires reach { displays_in_reach ticket pricing ≡ true }
        ensures { Deals self.old self.new (enter due ticket pricing (desk_in self.old)) }
    {
        let before = self.trades.rows().len();
        let taker = taker_of(ticket, pricing.reach());
        let left = self.book.take(taker, ticket.size, due, self.trades);
        let last = last_price(self.trades, before);
        let arrival = Arrival {
            ticket,
            pricing,
            due,
        };
        arrival.rest(self.book, last, left);
        self.serve(ticket.series, due);
    }
}

// An immediate order trades up to its limit, and what is left of it is withdrawn.
// (In no pit: nobody is served, so it asks nothing of the rows' numbers.)
pub fn enter_now(
    book: &mut Book,
    ticket: Ticket,
    due: u32,
    trades: &mut Roll<Trade>,
    withdrawals: &mut Roll<Withdrawal>,
)
    requires room { length (rows book.old) ≤ room trades.old }
    requires spare { 0 < room withdrawals.old }
    ensures trades { Trading (rows book.new) trades.old trades.new (enter_now due ticket (desk (rows book.old))) }
    ensures withdrawals { Withdrawing (rows book.new) withdrawals.old withdrawals.new (enter_now due ticket (desk (rows book.old))) }
{
    let left = book.take(taker_of(ticket, ticket.limit), ticket.size, due, trades);
    lapse(ticket.number, left, withdrawals);
}

// What is left of an order, if anything, is withdrawn.
fn lapse(number: u32, left: u32, withdrawals: &mut Roll<Withdrawal>)
    requires { 0 < room withdrawals.old }
    ensures { Gains withdrawals.old withdrawals.new (withdrawals_of (lapse number left [])) }
{
    if left > 0 {
        withdrawals.push(Withdrawal { number, left });
    }
}
