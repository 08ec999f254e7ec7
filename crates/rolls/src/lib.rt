// Rolls: what a call adds, it adds to rows that its caller lent.
#![tactic(auto)]

pub mod roll;
pub mod slots;
