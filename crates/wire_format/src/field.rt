// The fields of a line: values that some bytes say.
ghost use Rattle.std.specs.Prelude.{◌≡◌, [], ◌∷◌, Some, refl};
ghost use Rattle.values.specs.declared.order.Condition.TheVariants.{Day, Immediate};
ghost use Rattle.values.specs.declared.order.Kind.TheVariants.{Call, Put};
ghost use Rattle.values.specs.declared.side.Side.TheVariants.{Buy, Sell};
ghost use Rattle.wire_format.specs.Format.{Text, IsLetter, count, optional, side_text, kind_text, condition_text, price_text};
ghost use Rattle.wire_format.specs.Reading.{Reads};

use values::order::{Condition, Kind, OrderPrice};
use values::refusal::Refusal;
use values::side::{Price, Side};

// A value that stands in a line between two tabs, or before the newline.
pub trait Field: Copy {
    // Its bytes; nothing where it cannot be written.
    ghost says: { Self → Text };
}

// A field of one letter.
pub trait Letter: Field {
    fn letter(self) -> u8
        ensures { Self.says self ≡ Some (result ∷ []) };

    fn of_letter(letter: u8) -> Result<Self, Refusal>
        ensures { Reads Self.says (letter ∷ []) result };

    ghost one_letter: { (field : Self) → IsLetter (Self.says field) };
}

// A count.
impl Field for u32 {
    ghost says = { count };
}

// A price, or a dash where it is absent.
impl Field for Option<Price> {
    ghost says = { optional };
}

// A limit, or M for the market's price.
impl Field for OrderPrice {
    ghost says = { price_text };
}

impl Field for Side {
    ghost says = { side_text };
}

impl Letter for Side {
    fn letter(self) -> u8 {
        match self {
            Side::Buy => b'B',
            Side::Sell => b'S',
        }
    }

    fn of_letter(letter: u8) -> Result<Side, Refusal> {
        match letter {
            b'B' => Ok(Side::Buy),
            b'S' => Ok(Side::Sell),
            _ => Err(Refusal::Shape),
        }
    }

    ghost one_letter = { elim [ Buy ↦ (66, refl) | Sell ↦ (83, refl) ] };
}

impl Field for Kind {
    ghost says = { kind_text };
}

impl Letter for Kind {
    fn letter(self) -> u8 {
        match self {
            Kind::Call => b'C',
            Kind::Put => b'P',
        }
    }

    fn of_letter(letter: u8) -> Result<Kind, Refusal> {
        match letter {
            b'C' => Ok(Kind::Call),
            b'P' => Ok(Kind::Put),
            _ => Err(Refusal::Shape),
        }
    }

    ghost one_letter = { elim [ Call ↦ (67, refl) | Put ↦ (80, refl) ] };
}

impl Field for Condition {
    ghost says = { condition_text };
}

impl Letter for Condition {
    fn letter(self) -> u8 {
        match self {
            Condition::Day => b'D',
            Condition::Immediate => b'I',
        }
    }

    fn of_letter(letter: u8) -> Result<Condition, Refusal> {
        match letter {
            b'D' => Ok(Condition::Day),
            b'I' => Ok(Condition::Immediate),
            _ => Err(Refusal::Shape),
        }
    }

    ghost one_letter = { elim [ Day ↦ (68, refl) | Immediate ↦ (73, refl) ] };
}
