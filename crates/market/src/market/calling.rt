// One call, whichever it is.
ghost use Rattle.std.specs.Prelude.{◌≡◌};
ghost use Rattle.market.specs.Markets.{Does};

use crate::market::Market;
use screens::screen::{QuoteScreen, Screen};
use sources::PriceSource;
use trading::blotter::Blotter;
use values::call::Call;
use values::refusal::Refusal;

impl<O: Screen, Q: QuoteScreen, S: PriceSource> Market<O, Q, S> {
    // Answers a call: the number of the order or quote taken, none for another call taken, or the refusal. The trades and
    // withdrawals that it brings are added to the blotter.
    pub fn call(&mut self, call: Call, blotter: &mut Blotter) -> Result<Option<u32>, Refusal>
        ensures { Does O.Screen Q.Screen Q.extent S.PriceSource self.old self.new call result blotter.old blotter.new }
    {
        match call {
            Call::Nbbo { series, nbbo } => self.set_nbbo(series, nbbo).map(|()| None),
            Call::Event { class, event } => self.tell(class, event).map(|()| None),
            Call::Order(order) => self.order(order, blotter).map(Some),
            Call::Quote(quote) => self.quote(quote, blotter).map(Some),
            Call::Enable { maker, class } => self.enable(maker, class).map(|()| None),
            Call::Withdraw { number } => self.withdraw(number, blotter).map(|()| None),
            Call::Clock { ms } => self.advance(ms, blotter).map(|()| None),
            Call::Width(update) => self.update_width(update).map(|()| None),
        }
    }
}
