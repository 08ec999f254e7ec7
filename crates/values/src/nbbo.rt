// The national best bid and offer of a series.
ghost use Rattle.std.specs.Prelude.{◌≡◌};
ghost use Rattle.values.specs.Nbbos.{own, contra, absent};

use crate::side::{Price, Side};

// The national best bid (NBB) and the national best offer (NBO). A side that nobody quotes is absent: it has no price at all.
#[derive(Clone, Copy)]
pub struct Nbbo {
    pub bid: Option<Price>,
    pub offer: Option<Price>,
}

impl Nbbo {
    // Neither side is present.
    pub fn absent() -> Nbbo
        ensures { result ≡ absent }
    {
        Nbbo {
            bid: None,
            offer: None,
        }
    }

    // The best price on the side itself: the bid for a buy, the offer for a sell.
    pub fn own(&self, side: Side) -> Option<Price>
        ensures { result ≡ own side self.now }
    {
        match side {
            Side::Buy => self.bid,
            Side::Sell => self.offer,
        }
    }

    // The best price on the other side, with which the side trades: the offer for a buy, the bid for a sell.
    pub fn contra(&self, side: Side) -> Option<Price>
        ensures { result ≡ contra side self.now }
    {
        self.own(side.opposite())
    }
}
