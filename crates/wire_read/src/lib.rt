// Reading: the line that the bytes say, if they have one of the forms.
#![tactic(auto)]

mod field;
pub mod read;
