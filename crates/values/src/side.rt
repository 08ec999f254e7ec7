// The two sides of a market, and what it means that one price is more aggressive than another.
ghost use Rattle.std.specs.Prelude.{◌≡◌, Some};
ghost use Rattle.values.specs.Sides.{opposite, no_more_aggressive, onward, side_word};

use std::fmt;

// Whole cents.
pub type Price = u32;

// Bids come before offers.
#[derive(Clone, Copy, Debug, PartialEq, Eq, PartialOrd, Ord)]
pub enum Side {
    Buy,
    Sell,
}

impl Side {
    pub fn opposite(self) -> Side
        ensures { result ≡ opposite self }
    {
        match self {
            Side::Buy => Side::Sell,
            Side::Sell => Side::Buy,
        }
    }

    // Whether `price` is no more aggressive than `bound`: no higher for a buy, no lower for a sell.
    pub fn no_more_aggressive(self, price: Price, bound: Price) -> bool
        ensures { result ≡ no_more_aggressive self price bound }
    {
        match self {
            Side::Buy => price <= bound,
            Side::Sell => bound <= price,
        }
    }

    // The price `width` more aggressive than `price`, but not past `limit`.
    pub fn onward(self, price: Price, width: Price, limit: Price) -> Price
        ensures { result ≡ onward self price width limit }
    {
        match self {
            Side::Buy => price.saturating_add(width).min(limit),
            Side::Sell => price.saturating_sub(width).max(limit),
        }
    }
}

impl fmt::Display for Side {
    ghost output = { λ side. Some (side_word side) };

    fn fmt<W: fmt::Write>(&self, f: &mut fmt::Formatter<W>) -> fmt::Result {
        f.write_str(match self {
            Side::Buy => "buy",
            Side::Sell => "sell",
        })
    }
}
