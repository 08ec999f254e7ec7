// Two screens as one.
ghost use Rattle.screens.specs.Piles.{piled, piled_extent, refuses_piled};
ghost use Rattle.std.proofs.Common.{rules};

use crate::screen::{QuoteScreen, Screen};
use crate::view::{Ruling, Verdict, View};
use values::side::{Price, Side};

// Asks the second screen only where the first passes. To ask and to judge are calls of two traits, alike only in their form.
#[derive(Clone, Copy)]
pub struct Pile<A, B> {
    pub first: A,
    pub second: B,
}

impl<A: Screen, B: Screen> Screen for Pile<A, B> {
    ghost meaning = { λ x v s p. piled (A.Screen.meaning x.first v s p) (B.Screen.meaning x.second v s p) };

    ghost of_screens = { Prim.search (rules, refuses_piled) };

    fn ask(&self, view: &View, side: Side, price: Price) -> Verdict {
        self.first.ask(view, side, price)?;
        self.second.ask(view, side, price)
    }
}

impl<A: QuoteScreen, B: QuoteScreen> QuoteScreen for Pile<A, B> {
    ghost extent = { λ x v s p. piled_extent (A.Screen.meaning x.first v s p) (A.QuoteScreen.extent x.first v s p) (B.QuoteScreen.extent x.second v s p) };

    fn judge(&self, view: &View, side: Side, price: Price) -> Ruling {
        self.first.judge(view, side, price)?;
        self.second.judge(view, side, price)
    }
}
