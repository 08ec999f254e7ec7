// The table of refusals: why a call is not taken, with the number and the word by which it is reported.
ghost use Rattle.std.specs.Prelude.{◌≡◌, Some};
ghost use Rattle.values.specs.Refusals.{cause_number, cause_word, number, word};
ghost use Rattle.values.specs.declared.refusal.Refusal.TheVariants.{Screen};

use std::error::Error;
use std::fmt;

// Why a screen refuses a price.
#[derive(Clone, Copy, Debug, PartialEq, Eq)]
pub enum Cause {
    // Too far through the best price of the contra side.
    Through,
    // At or above what the option can be worth.
    Benchmark,
    // At or below a part of the option's intrinsic value.
    Intrinsic,
}

// Why a call is refused, in the order in which the causes are tested.
#[derive(Clone, Copy, Debug, PartialEq, Eq)]
pub enum Refusal {
    // A line, or what is to be written as one, has none of the forms.
    Shape,
    // Too few free rows in a roll, or too few free bytes.
    Rows,
    // A series, class, maker or official that does not exist.
    Name,
    // A price, strike or width out of range.
    Price,
    // A size out of range.
    Size,
    // A national best bid above the national best offer.
    Crossed,
    // The clock moved too far at once, or past its end.
    Clock,
    // No row has the number.
    Unknown,
    // The price source takes no events.
    Dead,
    // Both officials are one.
    Same,
    // Every order number is used.
    Spent,
    // The book is full.
    Full,
    // A market order where a side of the national best bid and offer is absent.
    NoMarket,
    // The maker is shut out of the class.
    Shut,
    // A series too many, or one listed after trading began.
    Late,
    // Refused by a screen.
    Screen(Cause),
}

impl Cause {
    fn number(self) -> u8
        ensures { result ≡ cause_number self }
    {
        match self {
            Cause::Through => 21,
            Cause::Benchmark => 22,
            Cause::Intrinsic => 23,
        }
    }

    fn word(self) -> &'static str
        ensures { result.now ≡ cause_word self }
    {
        match self {
            Cause::Through => "through",
            Cause::Benchmark => "benchmark",
            Cause::Intrinsic => "intrinsic",
        }
    }
}

impl Refusal {
    // The number by which it is reported. Named, and no `From`: that the conversion is to the published number is what counts.
    pub fn number(self) -> u8
        ensures { result ≡ number self }
    {
        match self {
            Refusal::Shape => 1,
            Refusal::Rows => 2,
            Refusal::Name => 3,
            Refusal::Price => 4,
            Refusal::Size => 5,
            Refusal::Crossed => 6,
            Refusal::Clock => 7,
            Refusal::Unknown => 8,
            Refusal::Dead => 9,
            Refusal::Same => 10,
            Refusal::Spent => 11,
            Refusal::Full => 12,
            Refusal::NoMarket => 13,
            Refusal::Shut => 14,
            Refusal::Late => 15,
            Refusal::Screen(cause) => cause.number(),
        }
    }

    // The word by which it is reported.
    pub fn word(self) -> &'static str
        ensures { result.now ≡ word self }
    {
        match self {
            Refusal::Shape => "shape",
            Refusal::Rows => "rows",
            Refusal::Name => "name",
            Refusal::Price => "price",
            Refusal::Size => "size",
            Refusal::Crossed => "crossed",
            Refusal::Clock => "clock",
            Refusal::Unknown => "unknown",
            Refusal::Dead => "dead",
            Refusal::Same => "same",
            Refusal::Spent => "spent",
            Refusal::Full => "full",
            Refusal::NoMarket => "nomarket",
            Refusal::Shut => "shut",
            Refusal::Late => "late",
            Refusal::Screen(cause) => cause.word(),
        }
    }
}

impl From<Cause> for Refusal {
    ghost from_gives = { λ cause refusal. refusal ≡ Screen cause };

    fn from(cause: Cause) -> Self {
        Self::Screen(cause)
    }
}

// A refusal prints as its word.
impl fmt::Display for Refusal {
    ghost output = { λ refusal. Some (word refusal) };

    fn fmt<W: fmt::Write>(&self, f: &mut fmt::Formatter<W>) -> fmt::Result {
        f.write_str(self.word())
    }
}

impl Error for Refusal {}
