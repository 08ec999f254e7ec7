// A quote: its tests, what its refusal costs, and how it replaces the maker's older one.
ghost use Rattle.std.specs.Prelude.{◌≡◌, not, Ok, Err, nat_le};
ghost use Rattle.trading.specs.Doing.{count};
ghost use Rattle.trading.specs.Floors.{rows_on};
ghost use Rattle.market.specs.States.{with_number};
ghost use Rattle.market.specs.Tests.{on_side, tests_quote};
ghost use Rattle.market.specs.Checks.{checked};
ghost use Rattle.market.specs.Calls.{refused_quote, taken_quote};
ghost use Rattle.market.specs.Markets.{of_market, room_of, ComesWith, Does};

use crate::market::Market;
use crate::market::calls::is_tight;
use crate::number::{Maker, SeriesNumber};
use crate::tests::{bad_price, bad_size};
use crate::wanted::{InClass, OnSide};
use collars::pricing::Pricing;
use screens::screen::{QuoteScreen, Screen};
use screens::view::{Extent, QuoteRefusal};
use sources::PriceSource;
use trading::blotter::Blotter;
use trading::ticket::Ticket;
use values::call::{Call, Quote};
use values::refusal::Refusal;

impl<O: Screen, Q: QuoteScreen, S: PriceSource> Market<O, Q, S> {
    // Whether 256 rows rest besides the quote that a new one would replace.
    fn is_full_for(&self, place: &OnSide) -> bool
        ensures { result ≡ nat_le 256 (count (λ x. not (on_side place.now.maker place.now.series place.now.side x)) (rows_on self.now.floor)) }
    {
        self.floor.first(place).is_none() && self.floor.len() >= 256
    }

    // The tests of a quote, from the top.
    fn check_quote(&self, quote: &Quote, blotter: &Blotter) -> Result<(), Refusal>
        ensures { result ≡ checked (of_market O.Screen Q.Screen Q.extent S.PriceSource tests_quote self.now (room_of blotter.now) quote.now) }
    {
        if is_tight(blotter.trades, blotter.withdrawals) {
            return Err(Refusal::Rows);
        }
        let series = self.listing.number(quote.series)?;
        let maker = Maker::try_from(quote.maker)?;
        if bad_price(quote.price) {
            return Err(Refusal::Price);
        }
        if bad_size(quote.size) {
            return Err(Refusal::Size);
        }
        if self.floor.next() > 999_999 {
            return Err(Refusal::Spent);
        }
        if self.is_full_for(&OnSide {
            maker: maker.get(),
            series: series.get(),
            side: quote.side,
        }) {
            return Err(Refusal::Full);
        }
        let class = self.listing.class_of(series.get());
        if self.shutouts.has(maker, class) {
            return Err(Refusal::Shut);
        }
        Ok(())
    }

    // A refusal by the screen withdraws the maker's quotes as far as it reaches.
    #[tactic(auto, using(crate::proofs::Hints::loses))]
    fn lose_quotes(&mut self, quote: Quote, refusal: QuoteRefusal, blotter: &mut Blotter)
        requires { checked (of_market O.Screen Q.Screen Q.extent S.PriceSource tests_quote self.old (room_of blotter.old) quote) ≡ Ok tt }
        ensures { ComesWith O.Screen Q.Screen Q.extent S.PriceSource self.old self.new (Err (Refusal.Screen refusal.cause)) (of_market O.Screen Q.Screen Q.extent S.PriceSource refused_quote self.old refusal.extent refusal.cause quote) blotter.old blotter.new }
    {
        let place = OnSide {
            maker: quote.maker as u8,
            series: quote.series as u8,
            side: quote.side,
        };
        match refusal.extent {
            Extent::OneSide => self.floor.withdraw(&place, blotter.withdrawals),
            Extent::WholeClass => {
                let class = self.listing.class_of(place.series);
                let all = InClass {
                    maker: place.maker,
                    class: class.get(),
                    listing: &self.listing,
                };
                self.floor.withdraw(&all, blotter.withdrawals);
                self.shutouts.put(Maker::new(quote.maker), class, true);
            }
        }
    }

    // A quote that its check and the screen have passed takes the next number, in the place of the maker's older one on that side.
    #[tactic(auto, using(crate::proofs::Hints::quotes))]
    fn take_quote(&mut self, quote: Quote, blotter: &mut Blotter) -> u32
        requires { checked (of_market O.Screen Q.Screen Q.extent S.PriceSource tests_quote self.old (room_of blotter.old) quote) ≡ Ok tt }
        ensures { ComesWith O.Screen Q.Screen Q.extent S.PriceSource self.old self.new (with_number (Ok result)) (of_market O.Screen Q.Screen Q.extent S.PriceSource taken_quote self.old quote) blotter.old blotter.new }
    {
        let place = OnSide {
            maker: quote.maker as u8,
            series: quote.series as u8,
            side: quote.side,
        };
        self.floor.withdraw(&place, blotter.withdrawals);
        let number = self.floor.next();
        let ticket = Ticket {
            number,
            series: place.series,
            side: place.side,
            limit: quote.price,
            size: quote.size,
            maker: Some(place.maker),
        };
        let pricing = Pricing::AtLimit { limit: quote.price };
        self.floor.enter(ticket, pricing, blotter.trades);
        number
    }

    // Q: a market maker's quote.
    pub fn quote(&mut self, quote: Quote, blotter: &mut Blotter) -> Result<u32, Refusal>
        ensures { Does O.Screen Q.Screen Q.extent S.PriceSource self.old self.new (Call.Quote quote) (with_number result) blotter.old blotter.new }
    {
        self.check_quote(&quote, blotter)?;
        let view = self.view(SeriesNumber::new(quote.series));
        match self.quotes.judge(&view, quote.side, quote.price) {
            Ok(()) => Ok(self.take_quote(quote, blotter)),
            Err(refusal) => {
                self.lose_quotes(quote, refusal, blotter);
                Err(refusal.cause.into())
            }
        }
    }
}
