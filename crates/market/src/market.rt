// A market of any order screen, quote screen and price source.
ghost use Rattle.std.specs.Prelude.{◌≡◌};
ghost use Rattle.market.specs.States.{view_in};
ghost use Rattle.market.specs.Markets.{of_market};

use crate::boards::Boards;
use crate::listing::Listing;
use crate::number::SeriesNumber;
use crate::shutouts::Shutouts;
use screens::screen::{QuoteScreen, Screen};
use screens::view::View;
use sources::PriceSource;
use trading::floor::Floor;

pub mod calling;
pub mod calls;
pub mod making;
pub mod quoting;

// Its screens and price source, what it lists, what is in force, who is shut out, and the floor with the book.
// No model of its own: what a clause says of a market is `making` and `state`, and the clauses of `new` name its parts.
#[derive(Drop)]
pub struct Market<O: Screen, Q: QuoteScreen, S: PriceSource> {
    orders: O,
    quotes: Q,
    source: S,
    listing: Listing,
    boards: Boards,
    shutouts: Shutouts,
    floor: Floor,
}

impl<O: Screen, Q: QuoteScreen, S: PriceSource> Market<O, Q, S> {
    // What a screen is shown of a series.
    fn view(&self, series: SeriesNumber) -> View
        ensures { result ≡ of_market O.Screen Q.Screen Q.extent S.PriceSource view_in self.now series.value }
    {
        let class = self.listing.class_of(series.get());
        let (kind, strike) = self.listing.terms_of(series.get());
        View {
            kind,
            strike,
            nbbo: self.boards.board(series).nbbo(),
            reference: self.source.reference(usize::from(class.get())),
        }
    }
}
