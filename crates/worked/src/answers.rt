// A question to a screen, and the line that says what was asked and what was answered.
use crate::text::{Answered, Dollars, Ruled, Shown};
use screens::rules::screen_quote;
use screens::screen::Screen;
use screens::view::View;
use std::io;
use values::nbbo::Nbbo;
use values::order::Kind;
use values::reference::Reference;
use values::side::{Price, Side};

#[derive(Clone, Copy)]
pub struct Question {
    pub view: View,
    pub side: Side,
    pub price: Price,
}

// A series of which nothing is known but its kind and strike.
pub fn series(kind: Kind, strike: Price) -> View {
    View {
        kind,
        strike,
        nbbo: Nbbo::absent(),
        reference: Reference::Absent,
    }
}

pub fn with_market(view: View, bid: Option<Price>, offer: Option<Price>) -> View {
    View {
        nbbo: Nbbo { bid, offer },
        ..view
    }
}

pub fn with_stock(view: View, reference: Reference) -> View {
    View { reference, ..view }
}

pub fn ask<S: Screen>(
    rt: &HostRuntime,
    name: &str,
    screen: &S,
    question: Question,
) -> io::Result<()> {
    let side = question.side;
    let price = Dollars(question.price);
    let shown = Shown(question.view);
    let answer = Answered(screen.ask(&question.view, question.side, question.price));
    println!(rt; "  {name}: {side} at {price}; {shown}: {answer}")
}

// Asks a screen two prices on one side of a series, the second of them just past an edge.
pub fn ask_both<S: Screen>(
    rt: &HostRuntime,
    name: &str,
    screen: &S,
    view: View,
    side: Side,
    prices: [Price; 2],
) -> io::Result<()> {
    for price in prices {
        ask(rt, name, screen, Question { view, side, price })?;
    }
    Ok(())
}

// Asks the rules' quote screen.
pub fn ask_quote(rt: &HostRuntime, question: Question) -> io::Result<()> {
    let side = question.side;
    let price = Dollars(question.price);
    let shown = Shown(question.view);
    let answer = Ruled(screen_quote(&question.view, question.side, question.price));
    println!(rt; "  quote: {side} at {price}; {shown}: {answer}")
}
