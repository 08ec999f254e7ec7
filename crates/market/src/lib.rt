// The market: its listing, its eight calls, and what each answers, changes and adds to the rolls.
#![tactic(auto)]

pub mod boards;
pub mod listing;
pub mod market;
pub mod number;
pub mod series;
pub mod shutouts;
pub mod tests;
pub mod wanted;
