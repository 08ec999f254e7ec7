// What a line says. Its bytes are defined in specs/: there is one definition of the format, for reading and for writing.
#![tactic(auto)]

pub mod field;
pub mod line;
