// The words of an order: the kind of option it is in, its price, and how long it stands.
ghost use Rattle.std.specs.Prelude.{◌≡◌, Some};
ghost use Rattle.values.specs.Orders.{limit_of, kind_word};

use crate::side::{Price, Side};
use std::fmt;

// What an option gives its holder: a call the right to buy the stock at the strike, a put the right to sell it.
#[derive(Clone, Copy, Debug, PartialEq, Eq)]
pub enum Kind {
    Call,
    Put,
}

// An order's price: the market's, or a limit. No `Option`: a market order is not an order whose price is blank.
#[derive(Clone, Copy)]
pub enum OrderPrice {
    Market,
    Limit(Price),
}

// How long an order stands: for the day, or only for what it can trade at once.
#[derive(Clone, Copy, Debug, PartialEq, Eq)]
pub enum Condition {
    Day,
    Immediate,
}

// The lowest and the highest price or strike, in cents.
pub const LOWEST_PRICE: Price = 1;

pub const HIGHEST_PRICE: Price = 10_000_000;

impl OrderPrice {
    // The most aggressive price at which the order may trade: a market order's is the end of the range.
    pub fn limit(self, side: Side) -> Price
        ensures { result ≡ limit_of side self }
    {
        match (self, side) {
            (OrderPrice::Limit(price), _) => price,
            (OrderPrice::Market, Side::Buy) => HIGHEST_PRICE,
            (OrderPrice::Market, Side::Sell) => LOWEST_PRICE,
        }
    }
}

impl fmt::Display for Kind {
    ghost output = { λ kind. Some (kind_word kind) };

    fn fmt<W: fmt::Write>(&self, f: &mut fmt::Formatter<W>) -> fmt::Result {
        f.write_str(match self {
            Kind::Call => "call",
            Kind::Put => "put",
        })
    }
}
