// What a price has to pass: the screens of limit orders and of quotes, and piles of screens.
#![tactic(auto)]

pub mod checks;
pub mod pile;
pub mod rules;
pub mod screen;
pub mod view;
