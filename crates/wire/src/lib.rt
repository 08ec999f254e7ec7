// The lines of an input: input is cut into lines, and a line is read and written in turn.
// Nothing here knows of the market: whether a price or a name is in range is not asked.
#![tactic(auto)]

pub mod again;
pub mod feed;
pub mod split;
