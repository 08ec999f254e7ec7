// Writing: the bytes of a line, into the caller's bytes.
#![tactic(auto)]

mod field;
mod tail;
pub mod write;
