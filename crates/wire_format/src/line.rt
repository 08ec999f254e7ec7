// What a line says.
use values::call::{Call, Terms};

// The longest that a line may be, in bytes, with its newline.
pub const LONGEST: usize = 80;

// The largest count that a line may hold: nine digits.
pub const LARGEST: u32 = 999_999_999;

#[derive(Clone, Copy)]
pub enum Line {
    // S: lists a series.
    Series(Terms),
    // The other eight letters: a call of the market.
    Call(Call),
}
