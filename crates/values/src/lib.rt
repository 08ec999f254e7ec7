// The values that the rest of the market speaks of: sides and prices, the national best bid and offer, reference prices and
// their events, the words of an order, the calls of a market, and the table of refusals.
#![tactic(auto)]

pub mod call;
pub mod nbbo;
pub mod order;
pub mod reference;
pub mod refusal;
pub mod side;
