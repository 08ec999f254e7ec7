// What a screen is shown, and what it answers.
ghost use Rattle.std.specs.Prelude.{◌≡◌};
ghost use Rattle.screens.specs.Views.{ruling_by};

use values::nbbo::Nbbo;
use values::order::Kind;
use values::reference::Reference;
use values::refusal::Cause;
use values::side::Price;

// All that a screen may look at: the series, its national best bid and offer, and the reference price of its class.
#[derive(Clone, Copy)]
pub struct View {
    pub kind: Kind,
    pub strike: Price,
    pub nbbo: Nbbo,
    pub reference: Reference,
}

// A screen's answer: it passes the price, or refuses it for a cause.
pub type Verdict = Result<(), Cause>;

// How far the refusal of a quote reaches: the maker's quote on that side of the series, or all its quotes in the class.
#[derive(Clone, Copy, Debug, PartialEq, Eq)]
pub enum Extent {
    OneSide,
    WholeClass,
}

// Why a quote screen refuses a price, and how far that reaches.
#[derive(Clone, Copy, Debug, PartialEq, Eq)]
pub struct QuoteRefusal {
    pub cause: Cause,
    pub extent: Extent,
}

// A quote screen's answer.
pub type Ruling = Result<(), QuoteRefusal>;

// The answer of a quote screen whose refusals reach so far.
pub fn reaching(verdict: Verdict, extent: Extent) -> Ruling
    ensures { result ≡ ruling_by verdict extent }
{
    verdict.map_err(|cause| QuoteRefusal { cause, extent })
}
