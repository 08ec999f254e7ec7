// Making a market of which everything holds that is said of every run.
ghost use Rattle.std.specs.Prelude.{◌≡◌};
ghost use Rattle.sources.specs.Sources.{reference_of};
ghost use Rattle.market.specs.Markets.{making, state};
ghost use Rattle.laws.specs.Reached.{EveryHistoryLawful};

use market::listing::Listing;
use market::market::Market;
use screens::screen::{QuoteScreen, Screen};
use sources::PriceSource;

// A market as `Market::new` makes it. Whatever is called on it, taken or refused, in any order, with rolls of any size: what is seen of
// the calls obeys the laws.
pub fn open_market<O: Screen, Q: QuoteScreen, S: PriceSource>(
    listing: Listing,
    orders: O,
    quotes: Q,
    source: S,
) -> Market<O, Q, S>
    ensures lawful { EveryHistoryLawful (making O.Screen Q.Screen Q.extent S.PriceSource) (state O.Screen Q.Screen Q.extent S.PriceSource) (reference_of (S.PriceSource.references source)) result }
    ensures parts { (result.listing ≡ listing) × (result.orders ≡ orders) × (result.quotes ≡ quotes) × (result.source ≡ source) }
{
    Market::new(listing, orders, quotes, source)
}
