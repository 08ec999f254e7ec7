// The four checks that the rules' screens are made of.
ghost use Rattle.std.specs.Prelude.{◌≡◌, ◌*◌, Bool, nat_le};
ghost use Rattle.screens.specs.Checks.{limit_order_filter, order_price_check, quote_nbbo_check, quote_benchmark_check, margin, above_value, intrinsic_value, one_side, whole_class};
ghost use Rattle.screens.specs.Views.{refused_if};
ghost use Rattle.std.proofs.Common.{rules};

use crate::screen::{QuoteScreen, Screen};
use crate::view::{Extent, Ruling, Verdict, View, reaching};
use values::order::Kind;
use values::reference::Reference;
use values::refusal::Cause;
use values::side::{Price, Side};

// Products are taken in 64 bits, where no price is too large: the checks answer for every price, in range or not.

// Whether `price` is at least `percent` hundredths of `of`.
fn at_least(price: Price, percent: u32, of: Price) -> bool
    ensures { result ≡ nat_le (percent * of) (100 * price) }
{
    u64::from(percent) * u64::from(of) <= 100 * u64::from(price)
}

// Whether `price` is at most `percent` hundredths of `of`.
fn at_most(price: Price, percent: u32, of: Price) -> bool
    ensures { result ≡ nat_le (100 * price) (percent * of) }
{
    100 * u64::from(price) <= u64::from(percent) * u64::from(of)
}

fn refused_if(cause: Cause, test: bool) -> Verdict
    ensures { result ≡ refused_if cause test }
{
    if test { Err(cause) } else { Ok(()) }
}

// How many percent through the contra side a limit order may not go.
fn filter_margin(contra: Price) -> u32
    ensures { result ≡ margin contra }
{
    if contra <= 100 { 100 } else { 50 }
}

// The Limit Order Filter: a limit may not lie too many percent through the contra side.
#[derive(Clone, Copy)]
pub struct LimitOrderFilter;

impl Screen for LimitOrderFilter {
    ghost meaning = { λ _. limit_order_filter };

    ghost of_screens = { Prim.search rules };

    fn ask(&self, view: &View, side: Side, price: Price) -> Verdict {
        let Some(contra) = view.nbbo.contra(side) else {
            return Ok(());
        };
        let margin = filter_margin(contra);
        match side {
            Side::Buy => refused_if(Cause::Through, at_least(price, 100 + margin, contra)),
            Side::Sell => refused_if(Cause::Through, at_most(price, 100 - margin, contra)),
        }
    }
}

// Whether a buy at `price` is at or above what the option can be worth: a put the strike, a call the stock and five dollars.
fn above_value(kind: Kind, strike: Price, sale: Price, price: Price) -> bool
    ensures { result ≡ above_value kind strike sale price }
{
    match kind {
        Kind::Put => price >= strike,
        Kind::Call => u64::from(price) >= u64::from(sale) + 500,
    }
}

// What exercising the option would bring at once, if anything.
fn intrinsic_value(kind: Kind, strike: Price, sale: Price) -> Price
    ensures { result ≡ intrinsic_value kind strike sale }
{
    match kind {
        Kind::Call => sale.saturating_sub(strike),
        Kind::Put => strike.saturating_sub(sale),
    }
}

// The order price check: while the stock trades, no buy above what the option can be worth and no sell at half its value.
#[derive(Clone, Copy)]
pub struct OrderPriceCheck;

impl Screen for OrderPriceCheck {
    ghost meaning = { λ _. order_price_check };

    ghost of_screens = { Prim.search rules };

    fn ask(&self, view: &View, side: Side, price: Price) -> Verdict {
        match (view.reference, side) {
            (Reference::Sale(sale), Side::Buy) => {
                refused_if(
                    Cause::Benchmark,
                    above_value(view.kind, view.strike, sale, price),
                )
            }
            (Reference::Sale(sale), Side::Sell) => {
                let value = intrinsic_value(view.kind, view.strike, sale);
                refused_if(Cause::Intrinsic, value > 0 && at_most(price, 50, value))
            }
            _ => Ok(()),
        }
    }
}

// The quote NBBO check: a quote may not lie too far through the contra side.
#[derive(Clone, Copy)]
pub struct QuoteNbboCheck;

impl Screen for QuoteNbboCheck {
    ghost meaning = { λ _. quote_nbbo_check };

    ghost of_screens = { Prim.search rules };

    fn ask(&self, view: &View, side: Side, price: Price) -> Verdict {
        match (side, view.nbbo.contra(side)) {
            (Side::Buy, Some(offer)) if offer <= 100 => refused_if(
                Cause::Through,
                price >= offer + 100,
            ),
            (Side::Buy, Some(offer)) => refused_if(Cause::Through, at_least(price, 150, offer)),
            (Side::Sell, Some(bid)) => refused_if(
                Cause::Through,
                bid > 100 && at_most(price, 50, bid),
            ),
            (_, None) => Ok(()),
        }
    }
}

// Both checks judge by their answer and an extent of their own; a type for that around a check is no plainer than the line.
impl QuoteScreen for QuoteNbboCheck {
    ghost extent = { λ _. one_side };

    fn judge(&self, view: &View, side: Side, price: Price) -> Ruling {
        reaching(self.ask(view, side, price), Extent::OneSide)
    }
}

// The quote benchmark check: no bid for a put at its strike, none for a call at the price of the stock.
#[derive(Clone, Copy)]
pub struct QuoteBenchmarkCheck;

impl Screen for QuoteBenchmarkCheck {
    ghost meaning = { λ _. quote_benchmark_check };

    ghost of_screens = { Prim.search rules };

    fn ask(&self, view: &View, side: Side, price: Price) -> Verdict {
        match (side, view.kind, view.reference) {
            (Side::Sell, _, _) | (Side::Buy, Kind::Call, Reference::Absent) => Ok(()),
            (Side::Buy, Kind::Put, _) => refused_if(Cause::Benchmark, price >= view.strike),
            (
                Side::Buy,
                Kind::Call,
                Reference::Close(stock) | Reference::Sale(stock) | Reference::Halted(stock),
            ) => { refused_if(Cause::Benchmark, price >= stock) }
        }
    }
}

impl QuoteScreen for QuoteBenchmarkCheck {
    ghost extent = { λ _. whole_class };

    fn judge(&self, view: &View, side: Side, price: Price) -> Ruling {
        reaching(self.ask(view, side, price), Extent::WholeClass)
    }
}
