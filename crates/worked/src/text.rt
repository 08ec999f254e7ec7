// How prices and what a screen is shown are printed.
use screens::view::{Extent, QuoteRefusal, Ruling, Verdict, View};
use std::fmt;
use values::nbbo::Nbbo;
use values::reference::Reference;
use values::refusal::Refusal;
use values::side::Price;

// A price in dollars and cents.
#[derive(Clone, Copy)]
pub struct Dollars(pub Price);

impl fmt::Display for Dollars {
    fn fmt<W: fmt::Write>(&self, f: &mut fmt::Formatter<W>) -> fmt::Result {
        let dollars = self.0 / 100;
        let cents = self.0 % 100;
        write!(f, "${dollars}.{cents:02}")
    }
}

// One side of the national best bid and offer: a dash where it is absent.
#[derive(Clone, Copy)]
struct Best(Option<Price>);

impl fmt::Display for Best {
    fn fmt<W: fmt::Write>(&self, f: &mut fmt::Formatter<W>) -> fmt::Result {
        match self.0 {
            Some(price) => write!(f, "{}", Dollars(price)),
            None => write!(f, "-"),
        }
    }
}

// A bid and an offer, as a trader writes them.
#[derive(Clone, Copy)]
pub struct Market(pub Nbbo);

impl fmt::Display for Market {
    fn fmt<W: fmt::Write>(&self, f: &mut fmt::Formatter<W>) -> fmt::Result {
        let bid = Best(self.0.bid);
        let offer = Best(self.0.offer);
        write!(f, "{bid} x {offer}")
    }
}

#[derive(Clone, Copy)]
struct Stock(Reference);

impl fmt::Display for Stock {
    fn fmt<W: fmt::Write>(&self, f: &mut fmt::Formatter<W>) -> fmt::Result {
        match self.0 {
            Reference::Absent => write!(f, "stock unknown"),
            Reference::Close(price) => write!(f, "stock closed at {}", Dollars(price)),
            Reference::Sale(price) => write!(f, "stock at {}", Dollars(price)),
            Reference::Halted(price) => write!(f, "stock halted at {}", Dollars(price)),
        }
    }
}

// What a screen is shown.
#[derive(Clone, Copy)]
pub struct Shown(pub View);

impl fmt::Display for Shown {
    fn fmt<W: fmt::Write>(&self, f: &mut fmt::Formatter<W>) -> fmt::Result {
        let strike = Dollars(self.0.strike);
        let kind = self.0.kind;
        let market = Market(self.0.nbbo);
        let stock = Stock(self.0.reference);
        write!(f, "{strike} {kind}, market {market}, {stock}")
    }
}

// A refusal by its number and word.
#[derive(Clone, Copy)]
pub struct Coded(pub Refusal);

impl fmt::Display for Coded {
    fn fmt<W: fmt::Write>(&self, f: &mut fmt::Formatter<W>) -> fmt::Result {
        write!(f, "refused, {} {}", self.0.number(), self.0)
    }
}

#[derive(Clone, Copy)]
pub struct Answered(pub Verdict);

impl fmt::Display for Answered {
    fn fmt<W: fmt::Write>(&self, f: &mut fmt::Formatter<W>) -> fmt::Result {
        match self.0 {
            Ok(()) => write!(f, "passes"),
            Err(cause) => write!(f, "{}", Coded(cause.into())),
        }
    }
}

#[derive(Clone, Copy)]
pub struct Ruled(pub Ruling);

impl fmt::Display for Ruled {
    fn fmt<W: fmt::Write>(&self, f: &mut fmt::Formatter<W>) -> fmt::Result {
        match self.0 {
            Ok(()) => write!(f, "passes"),
            Err(QuoteRefusal { cause, extent }) => {
                let cost = match extent {
                    Extent::OneSide => "that side",
                    Extent::WholeClass => "the class",
                };
                write!(f, "{}, costs {cost}", Coded(cause.into()))
            }
        }
    }
}
