// Reading a field of a line.
ghost use Rattle.std.specs.Prelude.{◌<◌, MatchBool};
ghost use Rattle.wire_format.specs.Format.{newline};
ghost use Rattle.wire_format.specs.Reading.{Reads};
ghost use Rattle.wire_read.specs.Fields.{Takes, Run, Count};

use values::order::{Condition, Kind, OrderPrice};
use values::refusal::Refusal;
use values::side::{Price, Side};
use wire_format::field::{Field, Letter};

// The most digits that a count may have.
const MOST_DIGITS: usize = 9;

pub trait ReadField: Field {
    // The field at the front, which the byte `end` ends, and what follows that byte. No digit is as low as `end`.
    fn read(bytes: &[u8], end: u8) -> Result<(Self, &[u8]), Refusal>
        requires { end < 48 }
        ensures { Takes Self.says end bytes.now result };
}

// A field and the tab after it, and what follows.
pub fn read_field<F: ReadField>(bytes: &[u8]) -> Result<(F, &[u8]), Refusal>
    ensures { Takes F.says 9 bytes.now result }
{
    F::read(bytes, b'\t')
}

// The last field: a newline ends it, and nothing follows.
pub fn read_last<F: ReadField>(bytes: &[u8]) -> Result<F, Refusal>
    ensures { Reads (λ field. newline (F.says field)) bytes.now result }
{
    let (field, rest) = F::read(bytes, b'\n')?;
    if rest.is_empty() {
        Ok(field)
    } else {
        Err(Refusal::Shape)
    }
}

// The number that the digits at the front write, and how many digits they are: at most nine are taken.
#[tactic(auto, using(crate::proofs::Counts::cut))]
fn read_digits(bytes: &[u8]) -> (u32, usize)
    ensures { Run bytes.now result.0 result.1 }
{
    let most = bytes.len().min(MOST_DIGITS);
    let mut n = 0;
    for (i, byte) in bytes[..most].iter().enumerate() {
        if !byte.is_ascii_digit() {
            return (n, i);
        }
        n = n * 10 + u32::from(*byte - b'0');
    }
    (n, most)
}

// Whether digits at the front, so many of them, are a count that the byte `end` ends.
fn is_count(bytes: &[u8], digits: usize, end: u8) -> bool
    ensures { MatchBool result (Count bytes.now digits end) (Count bytes.now digits end → ⊥) }
{
    if digits == 0 || digits >= bytes.len() {
        return false;
    }
    if bytes[0] == b'0' && digits > 1 {
        return false;
    }
    bytes[digits] == end
}

impl ReadField for u32 {
    #[tactic(auto, using(crate::proofs::Counts::passes))]
    fn read(bytes: &[u8], end: u8) -> Result<(u32, &[u8]), Refusal> {
        let (n, digits) = read_digits(bytes);
        if !is_count(bytes, digits, end) {
            return Err(Refusal::Shape);
        }
        Ok((n, &bytes[digits + 1..]))
    }
}

impl ReadField for Option<Price> {
    #[tactic(auto, using(crate::proofs::Fronts::absent_front))]
    fn read(bytes: &[u8], end: u8) -> Result<(Option<Price>, &[u8]), Refusal> {
        match bytes {
            [b'-', byte, rest @ ..] if *byte == end => Ok((None, rest)),
            _ => {
                let (price, rest) = u32::read(bytes, end)?;
                Ok((Some(price), rest))
            }
        }
    }
}

// Read as an optional price is, by another letter: one function for the two would be no shorter.
impl ReadField for OrderPrice {
    #[tactic(auto, using(crate::proofs::Fronts::market_front))]
    fn read(bytes: &[u8], end: u8) -> Result<(OrderPrice, &[u8]), Refusal> {
        match bytes {
            [b'M', byte, rest @ ..] if *byte == end => Ok((OrderPrice::Market, rest)),
            _ => {
                let (price, rest) = u32::read(bytes, end)?;
                Ok((OrderPrice::Limit(price), rest))
            }
        }
    }
}

// A field of one letter.
#[tactic(auto, using(crate::proofs::Fronts::letters))]
fn read_letter<L: Letter>(bytes: &[u8], end: u8) -> Result<(L, &[u8]), Refusal>
    ensures { Takes L.Field.says end bytes.now result }
{
    let [letter, byte, rest @ ..] = bytes else {
        return Err(Refusal::Shape);
    };
    if *byte != end {
        return Err(Refusal::Shape);
    }
    Ok((L::of_letter(*letter)?, rest))
}

// One impl for every letter would overlap those above.
impl ReadField for Side {
    fn read(bytes: &[u8], end: u8) -> Result<(Side, &[u8]), Refusal> {
        read_letter(bytes, end)
    }
}

impl ReadField for Kind {
    fn read(bytes: &[u8], end: u8) -> Result<(Kind, &[u8]), Refusal> {
        read_letter(bytes, end)
    }
}

impl ReadField for Condition {
    fn read(bytes: &[u8], end: u8) -> Result<(Condition, &[u8]), Refusal> {
        read_letter(bytes, end)
    }
}
