// Collar widths, the display price and reach of market orders, and an update of a width.
use crate::text::{Coded, Dollars, Market};
use collars::collar::{Settings, ladder};
use collars::pricing::price_order;
use collars::update::{Draft, check_official, check_width};
use std::io;
use values::nbbo::Nbbo;
use values::order::OrderPrice;
use values::refusal::Refusal;
use values::side::{Price, Side};

pub fn width(rt: &HostRuntime, bid: Price) -> io::Result<()> {
    let width = Dollars(ladder(bid));
    let bid = Dollars(bid);
    println!(rt; "  width: bid {bid}: {width}")
}

// What a market order that finds nothing to trade with displays, and how far it reaches.
pub fn market_order(rt: &HostRuntime, side: Side, bid: Price, offer: Price) -> io::Result<()> {
    let nbbo = Nbbo {
        bid: Some(bid),
        offer: Some(offer),
    };
    let pricing = price_order(side, OrderPrice::Market.limit(side), &nbbo, ladder(bid));
    let display = Dollars(pricing.display(None));
    let reach = Dollars(pricing.reach());
    let market = Market(nbbo);
    println!(rt; "  market order to {side}; market {market}: displays {display}, reaches {reach}")
}

pub fn published(rt: &HostRuntime) -> io::Result<()> {
    width(rt, 75)?;
    width(rt, 300)?;
    market_order(rt, Side::Sell, 75, 175)?;
    market_order(rt, Side::Buy, 25, 200)?;
    market_order(rt, Side::Buy, 150, 160)
}

// A width is drafted, approved by two officials and put in force; what a check refuses goes no further.
pub fn update(rt: &HostRuntime) -> io::Result<()> {
    let mut settings = Settings::new();
    for (width, first, second) in [(0, 3, 5), (60, 16, 5), (60, 3, 3), (60, 3, 5)] {
        let shown = Dollars(width);
        match approve(&mut settings, width, first, second) {
            Ok(()) => println!(rt; "  width {shown}, officials {first} and {second}: in force")?,
            Err(refusal) => println!(rt;
                "  width {shown}, officials {first} and {second}: {}",
                Coded(refusal)
            )?,
        }
        let now = Dollars(settings.width(300));
        println!(rt; "  width in force: {now}")?;
    }
    Ok(())
}

fn approve(settings: &mut Settings, width: Price, first: u32, second: u32) -> Result<(), Refusal> {
    check_width(Some(width))?;
    let draft = Draft::new(0, Some(width));
    check_official(first)?;
    let once = draft.approve(first);
    once.check_second(second)?;
    let approved = once.approve(second);
    settings.put_in_force(approved);
    Ok(())
}
