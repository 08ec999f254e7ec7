// The rules' own screens.
ghost use Rattle.std.specs.Prelude.{◌≡◌};
ghost use Rattle.screens.specs.Rules.{order_rules, quote_rules, quote_rules_extent};
ghost use Rattle.screens.specs.Views.{ruling_by};

use crate::checks::{LimitOrderFilter, OrderPriceCheck, QuoteBenchmarkCheck, QuoteNbboCheck};
use crate::pile::Pile;
use crate::screen::{QuoteScreen, Screen};
use crate::view::{Ruling, Verdict, View};
use values::side::{Price, Side};

// The screen of limit orders: the filter, then the price check.
pub type OrderRules = Pile<LimitOrderFilter, OrderPriceCheck>;

// The screen of quotes: the NBBO check, then the benchmark check.
pub type QuoteRules = Pile<QuoteNbboCheck, QuoteBenchmarkCheck>;

pub const ORDER_RULES: OrderRules = Pile {
    first: LimitOrderFilter,
    second: OrderPriceCheck,
};

pub const QUOTE_RULES: QuoteRules = Pile {
    first: QuoteNbboCheck,
    second: QuoteBenchmarkCheck,
};

// What the rules answer to a limit order.
pub fn screen_order(view: &View, side: Side, price: Price) -> Verdict
    ensures { result ≡ order_rules view.now side price }
{
    ORDER_RULES.ask(view, side, price)
}

// What the rules answer to a quote.
pub fn screen_quote(view: &View, side: Side, price: Price) -> Ruling
    ensures { result ≡ ruling_by (quote_rules view.now side price) (quote_rules_extent view.now side price) }
{
    QUOTE_RULES.judge(view, side, price)
}
