// Making a market, and the calls that bring no order or quote.
ghost use Rattle.std.specs.Prelude.{◌≡◌};
ghost use Rattle.sources.specs.Sources.{reference_of};
ghost use Rattle.market.specs.States.{fresh, without_number};
ghost use Rattle.market.specs.Calls.{step_in_force};
ghost use Rattle.market.specs.Markets.{of_market, state, ComesQuietly, DoesQuietly};

use crate::boards::Boards;
use crate::listing::Listing;
use crate::market::Market;
use crate::number::{Class, Maker};
use crate::shutouts::Shutouts;
use crate::tests::{bad_event, bad_side, is_crossed};
use collars::update::{Approved, Draft, check_official, check_width};
use screens::screen::{QuoteScreen, Screen};
use sources::PriceSource;
use trading::floor::Floor;
use values::call::{Call, Update};
use values::nbbo::Nbbo;
use values::reference::Event;
use values::refusal::Refusal;

impl<O: Screen, Q: QuoteScreen, S: PriceSource> Market<O, Q, S> {
    // The clock stands at 0, the book is empty, every width goes by the ladder, nobody is shut out, and both sides of every series
    // are absent.
    pub fn new(listing: Listing, orders: O, quotes: Q, source: S) -> Self
        ensures begins { state O.Screen Q.Screen Q.extent S.PriceSource result ≡ fresh (reference_of (S.PriceSource.references source)) }
        ensures parts { (result.listing ≡ listing) × (result.orders ≡ orders) × (result.quotes ≡ quotes) × (result.source ≡ source) }
    {
        Market {
            orders,
            quotes,
            source,
            listing,
            boards: Boards::new(),
            shutouts: Shutouts::new(),
            floor: Floor::new(),
        }
    }

    // N: sets or clears a series' national best bid and offer.
    pub fn set_nbbo(&mut self, series: u32, nbbo: Nbbo) -> Result<(), Refusal>
        ensures { DoesQuietly O.Screen Q.Screen Q.extent S.PriceSource self.old self.new (Call.Nbbo series nbbo) (without_number result) }
    {
        let series = self.listing.number(series)?;
        if bad_side(nbbo.bid) || bad_side(nbbo.offer) {
            return Err(Refusal::Price);
        }
        if is_crossed(nbbo) {
            return Err(Refusal::Crossed);
        }
        self.boards.set_nbbo(series, nbbo);
        Ok(())
    }

    // U: hands a class's event to the price source.
    pub fn tell(&mut self, class: u32, event: Event) -> Result<(), Refusal>
        ensures { DoesQuietly O.Screen Q.Screen Q.extent S.PriceSource self.old self.new (Call.Event class event) (without_number result) }
    {
        let class = Class::try_from(class)?;
        if bad_event(event) {
            return Err(Refusal::Price);
        }
        if !self.source.is_live() {
            return Err(Refusal::Dead);
        }
        self.source.tell(usize::from(class.get()), event);
        Ok(())
    }

    // E: lets a maker quote in a class again.
    pub fn enable(&mut self, maker: u32, class: u32) -> Result<(), Refusal>
        ensures { DoesQuietly O.Screen Q.Screen Q.extent S.PriceSource self.old self.new (Call.Enable maker class) (without_number result) }
    {
        let maker = Maker::try_from(maker)?;
        let class = Class::try_from(class)?;
        self.shutouts.put(maker, class, false);
        Ok(())
    }

    // W: puts an approved update in force, which spends it, even where the series is not listed.
    pub fn put_in_force(&mut self, update: Approved) -> Result<(), Refusal>
        ensures { ComesQuietly O.Screen Q.Screen Q.extent S.PriceSource self.old self.new (without_number result) (of_market O.Screen Q.Screen Q.extent S.PriceSource step_in_force self.old update.series update.width) }
    {
        let series = self.listing.number(update.series())?;
        self.boards.put_in_force(series, update);
        Ok(())
    }

    // W, by its numbers: an update is drafted, approved by both officials and put in force.
    pub fn update_width(&mut self, update: Update) -> Result<(), Refusal>
        ensures { DoesQuietly O.Screen Q.Screen Q.extent S.PriceSource self.old self.new (Call.Width update) (without_number result) }
    {
        self.listing.number(update.series)?;
        check_official(update.first)?;
        check_official(update.second)?;
        check_width(update.width)?;
        let once = Draft::new(update.series, update.width).approve(update.first);
        once.check_second(update.second)?;
        self.put_in_force(once.approve(update.second))
    }
}
