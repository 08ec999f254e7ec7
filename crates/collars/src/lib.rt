// How far an order may go: the collar widths, the updates that change them, and the display price and reach of an order.
#![tactic(auto)]

pub mod collar;
pub mod pricing;
pub mod update;
