// Writing a field of a line.
ghost use Rattle.std.specs.Prelude.{◌≤◌, Some};
ghost use Rattle.wire_format.specs.Format.{glued};
ghost use Rattle.wire_write.specs.Tails.{made, Grows};

use crate::tail::Tail;
use values::order::{Condition, Kind, OrderPrice};
use values::refusal::Refusal;
use values::side::{Price, Side};
use wire_format::field::{Field, Letter};
use wire_format::line::LARGEST;

pub trait WriteField: Field {
    // The field, and the byte that ends it.
    fn put(self, tail: &mut Tail, end: u8) -> Result<(), Refusal>
        requires { 10 ≤ tail.old.start }
        ensures { Grows tail.old (glued end (Self.says self) (Some (made tail.old))) 10 result tail.new };
}

impl WriteField for u32 {
    fn put(self, tail: &mut Tail, end: u8) -> Result<(), Refusal> {
        if self > LARGEST {
            return Err(Refusal::Shape);
        }
        tail.put(end);
        tail.put_digits(self);
        Ok(())
    }
}

impl WriteField for Option<Price> {
    fn put(self, tail: &mut Tail, end: u8) -> Result<(), Refusal> {
        match self {
            Some(price) => price.put(tail, end)?,
            None => tail.put_letter(b'-', end),
        }
        Ok(())
    }
}

// Written as an optional price is, by another letter: one function for the two would be no shorter.
impl WriteField for OrderPrice {
    fn put(self, tail: &mut Tail, end: u8) -> Result<(), Refusal> {
        match self {
            OrderPrice::Limit(price) => price.put(tail, end)?,
            OrderPrice::Market => tail.put_letter(b'M', end),
        }
        Ok(())
    }
}

// A field of one letter.
fn put_letter<L: Letter>(field: L, tail: &mut Tail, end: u8) -> Result<(), Refusal>
    requires { 10 ≤ tail.old.start }
    ensures { Grows tail.old (glued end (L.Field.says field) (Some (made tail.old))) 10 result tail.new }
{
    tail.put_letter(field.letter(), end);
    Ok(())
}

// One impl for every letter would overlap those above.
impl WriteField for Side {
    fn put(self, tail: &mut Tail, end: u8) -> Result<(), Refusal> {
        put_letter(self, tail, end)
    }
}

impl WriteField for Kind {
    fn put(self, tail: &mut Tail, end: u8) -> Result<(), Refusal> {
        put_letter(self, tail, end)
    }
}

impl WriteField for Condition {
    fn put(self, tail: &mut Tail, end: u8) -> Result<(), Refusal> {
        put_letter(self, tail, end)
    }
}
