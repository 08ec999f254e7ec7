// What happens to the rows of a book within a call: orders and quotes enter, held orders are served and moved, rows are withdrawn.
#![tactic(auto)]

pub mod advancing;
pub mod blotter;
pub mod entering;
pub mod floor;
pub mod pit;
pub mod serving;
pub mod ticket;
pub mod withdrawing;
