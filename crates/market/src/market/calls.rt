// The calls that may trade or withdraw.
ghost use Rattle.std.specs.Prelude.{◌≡◌, Ok};
ghost use Rattle.market.specs.States.{with_number, without_number};
ghost use Rattle.market.specs.Tests.{tight, tests_order};
ghost use Rattle.market.specs.Checks.{checked};
ghost use Rattle.market.specs.Calls.{screening, taken_order};
ghost use Rattle.market.specs.Markets.{of_market, free_rows, room_of, ComesWith, Does};

use crate::market::Market;
use crate::number::SeriesNumber;
use crate::tests::{bad_limit, bad_size, is_day, is_market, is_one_sided};
use crate::wanted::Numbered;
use book::row::{Trade, Withdrawal};
use rolls::roll::Roll;
use screens::screen::{QuoteScreen, Screen};
use screens::view::Verdict;
use sources::PriceSource;
use trading::blotter::Blotter;
use trading::ticket::Ticket;
use values::call::{Call, Order};
use values::order::{Condition, OrderPrice};
use values::refusal::Refusal;
use values::side::Side;

// Whether the rolls have too few free rows for a call that may trade or withdraw.
pub fn is_tight(trades: &Roll<Trade>, withdrawals: &Roll<Withdrawal>) -> bool
    ensures { result ≡ tight (free_rows trades.now withdrawals.now) }
{
    trades.free() < 256 || withdrawals.free() < 128
}

impl<O: Screen, Q: QuoteScreen, S: PriceSource> Market<O, Q, S> {
    // X: withdraws the row with a number.
    #[tactic(auto, using(crate::proofs::Hints::withdraws))]
    pub fn withdraw(&mut self, number: u32, blotter: &mut Blotter) -> Result<(), Refusal>
        ensures { Does O.Screen Q.Screen Q.extent S.PriceSource self.old self.new (Call.Withdraw number) (without_number result) blotter.old blotter.new }
    {
        if is_tight(blotter.trades, blotter.withdrawals) {
            return Err(Refusal::Rows);
        }
        if self.floor.row(number).is_none() {
            return Err(Refusal::Unknown);
        }
        self.floor
            .withdraw(&Numbered { number }, blotter.withdrawals);
        Ok(())
    }

    // T: moves the clock on by `ms` milliseconds.
    #[tactic(auto, using(crate::proofs::Hints::advances))]
    pub fn advance(&mut self, ms: u32, blotter: &mut Blotter) -> Result<(), Refusal>
        ensures { Does O.Screen Q.Screen Q.extent S.PriceSource self.old self.new (Call.Clock ms) (without_number result) blotter.old blotter.new }
    {
        if is_tight(blotter.trades, blotter.withdrawals) {
            return Err(Refusal::Rows);
        }
        if ms > 1_000 || self.floor.clock() + ms > 100_000_000 {
            return Err(Refusal::Clock);
        }
        self.floor.advance(ms, blotter.trades);
        Ok(())
    }

    // The tests of an order, from the top.
    fn check_order(&self, order: &Order, blotter: &Blotter) -> Result<(), Refusal>
        ensures { result ≡ checked (of_market O.Screen Q.Screen Q.extent S.PriceSource tests_order self.now (room_of blotter.now) order.now) }
    {
        if is_tight(blotter.trades, blotter.withdrawals) {
            return Err(Refusal::Rows);
        }
        let series = self.listing.number(order.series)?;
        if bad_limit(order.price) {
            return Err(Refusal::Price);
        }
        if bad_size(order.size) {
            return Err(Refusal::Size);
        }
        if self.floor.next() > 999_999 {
            return Err(Refusal::Spent);
        }
        if is_day(order.condition) && self.floor.len() >= 256 {
            return Err(Refusal::Full);
        }
        if is_market(order.price) && is_one_sided(self.boards.board(series).nbbo()) {
            return Err(Refusal::NoMarket);
        }
        Ok(())
    }

    // A limit order is screened, a market order is not.
    fn screens(&self, series: SeriesNumber, side: Side, price: OrderPrice) -> Verdict
        ensures { result ≡ of_market O.Screen Q.Screen Q.extent S.PriceSource screening self.now series.value side price }
    {
        match price {
            OrderPrice::Market => Ok(()),
            OrderPrice::Limit(price) => self.orders.ask(&self.view(series), side, price),
        }
    }

    // An order that its check and the screen have passed takes the next number.
    #[tactic(auto, using(crate::proofs::Hints::orders))]
    fn take_order(&mut self, order: Order, blotter: &mut Blotter) -> u32
        requires { checked (of_market O.Screen Q.Screen Q.extent S.PriceSource tests_order self.old (room_of blotter.old) order) ≡ Ok tt }
        ensures { ComesWith O.Screen Q.Screen Q.extent S.PriceSource self.old self.new (with_number (Ok result)) (of_market O.Screen Q.Screen Q.extent S.PriceSource taken_order self.old order) blotter.old blotter.new }
    {
        let number = self.floor.next();
        let series = SeriesNumber::new(order.series);
        let limit = order.price.limit(order.side);
        let ticket = Ticket {
            number,
            series: series.get(),
            side: order.side,
            limit,
            size: order.size,
            maker: None,
        };
        match order.condition {
            Condition::Day => {
                let board = self.boards.board(series);
                let pricing = board.price(order.side, limit);
                self.floor.enter(ticket, pricing, blotter.trades);
            }
            Condition::Immediate => {
                self.floor
                    .enter_now(ticket, blotter.trades, blotter.withdrawals);
            }
        }
        number
    }

    // O: an order.
    pub fn order(&mut self, order: Order, blotter: &mut Blotter) -> Result<u32, Refusal>
        ensures { Does O.Screen Q.Screen Q.extent S.PriceSource self.old self.new (Call.Order order) (with_number result) blotter.old blotter.new }
    {
        self.check_order(&order, blotter)?;
        self.screens(SeriesNumber::new(order.series), order.side, order.price)?;
        Ok(self.take_order(order, blotter))
    }
}
