// What may be asked of a market: its eight calls, and what each brings; and what a series is listed by.
use crate::nbbo::Nbbo;
use crate::order::{Condition, Kind, OrderPrice};
use crate::reference::Event;
use crate::side::{Price, Side};

// What a series is listed by.
#[derive(Clone, Copy)]
pub struct Terms {
    pub class: u32,
    pub kind: Kind,
    pub strike: Price,
}

// An order as it is brought. Nothing of it is tested yet.
#[derive(Clone, Copy)]
pub struct Order {
    pub series: u32,
    pub side: Side,
    pub price: OrderPrice,
    pub size: u32,
    pub condition: Condition,
}

// A maker's quote on one side of a series, as it is brought.
#[derive(Clone, Copy)]
pub struct Quote {
    pub maker: u32,
    pub series: u32,
    pub side: Side,
    pub price: Price,
    pub size: u32,
}

// An update of a series' collar width by its numbers, with the two officials who approve it.
#[derive(Clone, Copy)]
pub struct Update {
    pub series: u32,
    // None returns the series to the ladder.
    pub width: Option<Price>,
    pub first: u32,
    pub second: u32,
}

#[derive(Clone, Copy)]
pub enum Call {
    // N: sets or clears a series' national best bid and offer.
    Nbbo { series: u32, nbbo: Nbbo },
    // U: hands a class's event to the price source.
    Event { class: u32, event: Event },
    // O: an order.
    Order(Order),
    // Q: a maker's quote.
    Quote(Quote),
    // E: lets a maker quote in a class again.
    Enable { maker: u32, class: u32 },
    // X: withdraws the row with a number.
    Withdraw { number: u32 },
    // T: moves the clock on.
    Clock { ms: u32 },
    // W: an update of a series' width, drafted and approved at its turn.
    Width(Update),
}
