// The examples with which the exchange published the checks, each asked of the rules' whole screen.
use crate::answers::{Question, ask, ask_quote, series, with_market, with_stock};
use screens::rules::ORDER_RULES;
use std::io;
use values::order::Kind;
use values::reference::Reference;
use values::side::Side;

pub fn quotes(rt: &HostRuntime) -> io::Result<()> {
    let put_30 = with_market(series(Kind::Put, 3_000), Some(6), Some(10));
    let put_35 = with_market(series(Kind::Put, 3_500), Some(60), Some(65));
    let call_35 = with_market(series(Kind::Call, 3_500), Some(600), Some(620));
    let call_40 = with_market(series(Kind::Call, 4_000), Some(282), Some(285));
    let call_50 = with_stock(series(Kind::Call, 5_000), Reference::Sale(5_000));
    let put_70 = with_stock(series(Kind::Put, 7_000), Reference::Sale(5_000));
    let questions = [
        Question {
            view: put_30,
            side: Side::Buy,
            price: 150,
        },
        Question {
            view: put_30,
            side: Side::Sell,
            price: 1,
        },
        Question {
            view: put_35,
            side: Side::Sell,
            price: 1,
        },
        Question {
            view: call_35,
            side: Side::Buy,
            price: 930,
        },
        Question {
            view: call_40,
            side: Side::Sell,
            price: 60,
        },
        Question {
            view: call_50,
            side: Side::Buy,
            price: 5_300,
        },
        Question {
            view: put_70,
            side: Side::Buy,
            price: 7_000,
        },
    ];
    for question in questions {
        ask_quote(rt, question)?;
    }
    Ok(())
}

pub fn orders(rt: &HostRuntime) -> io::Result<()> {
    let bid_4 = with_market(series(Kind::Call, 5_000), Some(400), None);
    let offer_075 = with_market(series(Kind::Call, 5_000), None, Some(75));
    let put_50 = with_stock(series(Kind::Put, 5_000), Reference::Sale(5_000));
    let call_50 = with_stock(series(Kind::Call, 5_000), Reference::Sale(5_000));
    let questions = [
        Question {
            view: bid_4,
            side: Side::Sell,
            price: 200,
        },
        Question {
            view: offer_075,
            side: Side::Buy,
            price: 150,
        },
        Question {
            view: put_50,
            side: Side::Buy,
            price: 5_000,
        },
        Question {
            view: call_50,
            side: Side::Buy,
            price: 5_500,
        },
        Question {
            view: call_50,
            side: Side::Buy,
            price: 5_000,
        },
    ];
    for question in questions {
        ask(rt, "order", &ORDER_RULES, question)?;
    }
    Ok(())
}
