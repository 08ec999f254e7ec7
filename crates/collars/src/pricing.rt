// How an order is priced on its arrival: where it displays and how far it reaches.
ghost use Rattle.std.specs.Prelude.{◌≡◌};
ghost use Rattle.collars.specs.Pricings.{pricing, collared, reach_of, display_of, collar_of, spread};

use values::nbbo::Nbbo;
use values::side::{Price, Side};

// An order's display price is where its balance rests; its reach is the most aggressive price at which it trades now.
#[derive(Clone, Copy)]
pub enum Pricing {
    // Not collared: it displays at its limit and reaches it.
    AtLimit {
        limit: Price,
    },
    // Collared, where the national best bid and offer lie further apart than the collar.
    Wide {
        display: Price,
        reach: Price,
        collar: Price,
    },
    // Collared, where they do not. The balance displays at the price of its last trade, and at `untraded` if it made none.
    Narrow {
        untraded: Price,
        reach: Price,
        collar: Price,
    },
}

impl Pricing {
    pub fn reach(self) -> Price
        ensures { result ≡ reach_of self }
    {
        match self {
            Pricing::AtLimit { limit } => limit,
            Pricing::Wide { reach, .. } | Pricing::Narrow { reach, .. } => reach,
        }
    }

    // The display price of the balance, by the price of the order's last trade, if it made one.
    pub fn display(self, last_trade: Option<Price>) -> Price
        ensures { result ≡ display_of self last_trade }
    {
        match self {
            Pricing::AtLimit { limit } => limit,
            Pricing::Wide { display, .. } => display,
            Pricing::Narrow { untraded, .. } => last_trade.unwrap_or(untraded),
        }
    }

    // The collar, if the order is collared.
    pub fn collar(self) -> Option<Price>
        ensures { result ≡ collar_of self }
    {
        match self {
            Pricing::AtLimit { .. } => None,
            Pricing::Wide { collar, .. } | Pricing::Narrow { collar, .. } => Some(collar),
        }
    }
}

// The pricing of a day order, by its side, its limit, the national best bid and offer, and the width in force.
pub fn price_order(side: Side, limit: Price, nbbo: &Nbbo, width: Price) -> Pricing
    ensures { result ≡ pricing side limit nbbo.now width }
{
    match (nbbo.own(side), nbbo.contra(side)) {
        (Some(own), Some(contra)) if side.no_more_aggressive(contra, limit) => {
            price_collared(side, limit, own, contra, width)
        }
        _ => Pricing::AtLimit { limit },
    }
}

fn price_collared(side: Side, limit: Price, own: Price, contra: Price, collar: Price) -> Pricing
    ensures { result ≡ collared side limit own contra collar }
{
    if spread_of(side, own, contra) > collar {
        // the display price lies short of the contra side
        let display = side.onward(own, collar, contra);
        let reach = side.onward(display, collar, limit);
        Pricing::Wide {
            display,
            reach,
            collar,
        }
    } else {
        let reach = side.onward(contra, collar, limit);
        Pricing::Narrow {
            untraded: own,
            reach,
            collar,
        }
    }
}

// How far apart the best bid and offer lie.
fn spread_of(side: Side, own: Price, contra: Price) -> Price
    ensures { result ≡ spread side own contra }
{
    match side {
        Side::Buy => contra.saturating_sub(own),
        Side::Sell => own.saturating_sub(contra),
    }
}
