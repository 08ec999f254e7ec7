// The book: the rows that rest, the due list of its held orders, and how a taker trades with the rows. It knows nothing of screens,
// series lists, clocks or text.
#![tactic(auto)]

mod awaiting;
pub mod book;
pub mod places;
mod ranking;
mod resting;
pub mod row;
