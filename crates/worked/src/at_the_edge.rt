// The prices at the edge: the first six of one check alone, then the widths, then a market order.
use crate::answers::{Question, ask, ask_both, series, with_market, with_stock};
use crate::widths::{market_order, width};
use screens::checks::{LimitOrderFilter, OrderPriceCheck, QuoteNbboCheck};
use screens::view::View;
use std::io;
use values::order::Kind;
use values::reference::Reference;
use values::side::{Price, Side};

pub fn run(rt: &HostRuntime) -> io::Result<()> {
    through(rt)?;
    stock(rt)?;
    for bid in [199, 200, 500, 501, 2_001] {
        width(rt, bid)?;
    }
    market_order(rt, Side::Sell, 75, 175)
}

// Against the contra side.
fn through(rt: &HostRuntime) -> io::Result<()> {
    let call = series(Kind::Call, 5_000);
    let offer_10 = with_market(call, None, Some(10));
    ask_nbbo_check(rt, offer_10, Side::Buy, [109, 110])?;
    let bid_400 = with_market(call, Some(400), None);
    ask_filter(rt, bid_400, Side::Sell, [200, 201])?;
    let offer_101 = with_market(call, None, Some(101));
    ask_filter(rt, offer_101, Side::Buy, [151, 152])?;
    let bid_101 = with_market(call, Some(101), None);
    ask_nbbo_check(rt, bid_101, Side::Sell, [50, 51])
}

fn ask_nbbo_check(rt: &HostRuntime, view: View, side: Side, prices: [Price; 2]) -> io::Result<()> {
    ask_both(rt, "quote NBBO check", &QuoteNbboCheck, view, side, prices)
}

fn ask_filter(rt: &HostRuntime, view: View, side: Side, prices: [Price; 2]) -> io::Result<()> {
    ask_both(
        rt,
        "limit order filter",
        &LimitOrderFilter,
        view,
        side,
        prices,
    )
}

// Against the stock and the strike.
fn stock(rt: &HostRuntime) -> io::Result<()> {
    let check = "order price check";
    let call = with_stock(series(Kind::Call, 5_000), Reference::Sale(5_000));
    ask_both(rt, check, &OrderPriceCheck, call, Side::Buy, [5_499, 5_500])?;
    for reference in [Reference::Sale(5_000), Reference::Halted(5_000)] {
        let question = Question {
            view: with_stock(series(Kind::Put, 5_000), reference),
            side: Side::Buy,
            price: 5_000,
        };
        ask(rt, check, &OrderPriceCheck, question)?;
    }
    Ok(())
}
