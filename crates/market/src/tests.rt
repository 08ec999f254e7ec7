// The ranges that calls are tested for.
ghost use Rattle.std.specs.Prelude.{◌≡◌, Option};
ghost use Rattle.market.specs.Tests.{bad_price, bad_side, bad_limit, bad_size, bad_event, crossed, tight, is_day, is_market, one_sided};

use values::nbbo::Nbbo;
use values::order::{Condition, HIGHEST_PRICE, LOWEST_PRICE, OrderPrice};
use values::reference::Event;
use values::side::Price;

// A price or strike is 1 to 10,000,000.
pub fn bad_price(price: Price) -> bool
    ensures { result ≡ bad_price price }
{
    price < LOWEST_PRICE || price > HIGHEST_PRICE
}

// A side of the national best bid and offer may be absent.
pub fn bad_side(price: Option<Price>) -> bool
    ensures { result ≡ bad_side price }
{
    price.is_some_and(bad_price)
}

// A market order has no price to be tested.
pub fn bad_limit(price: OrderPrice) -> bool
    ensures { result ≡ bad_limit price }
{
    match price {
        OrderPrice::Limit(price) => bad_price(price),
        OrderPrice::Market => false,
    }
}

// A size is 1 to 999,999 contracts.
pub fn bad_size(size: u32) -> bool
    ensures { result ≡ bad_size size }
{
    size < 1 || size > 999_999
}

// A halt or a resumption has none either.
pub fn bad_event(event: Event) -> bool
    ensures { result ≡ bad_event event }
{
    match event {
        Event::Close(price) | Event::Open(price) | Event::Last(price) => bad_price(price),
        Event::Halt | Event::Resume => false,
    }
}

// A national best bid above the national best offer.
pub fn is_crossed(nbbo: Nbbo) -> bool
    ensures { result ≡ crossed nbbo.bid nbbo.offer }
{
    nbbo.bid
        .zip(nbbo.offer)
        .is_some_and(|(bid, offer)| bid > offer)
}

// Whether what is left of an order may rest.
pub fn is_day(condition: Condition) -> bool
    ensures { result ≡ is_day condition }
{
    condition == Condition::Day
}

// Whether an order takes the market's price.
pub fn is_market(price: OrderPrice) -> bool
    ensures { result ≡ is_market price }
{
    matches!(price, OrderPrice::Market)
}

// Whether a side of the national best bid and offer is absent.
pub fn is_one_sided(nbbo: Nbbo) -> bool
    ensures { result ≡ one_sided nbbo }
{
    nbbo.bid.is_none() || nbbo.offer.is_none()
}
