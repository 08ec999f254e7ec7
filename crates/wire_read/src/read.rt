// Reading: the line that the bytes say, if they have one of the forms.
ghost use Rattle.std.specs.Prelude.{◌∷◌};
ghost use Rattle.wire_format.specs.Format.{written, call_text, event_text};
ghost use Rattle.wire_format.specs.Reading.{Reads};
ghost use Rattle.wire_read.specs.Fields.{under};

use crate::field::{read_field, read_last};
use values::call::{Call, Order, Quote, Terms, Update};
use values::nbbo::Nbbo;
use values::reference::Event;
use values::refusal::Refusal;
use wire_format::line::Line;

// The event that a letter names, with the price that follows its tab.
fn read_priced_event(letter: u8, bytes: &[u8]) -> Result<Event, Refusal>
    ensures { Reads event_text (letter ∷ (9 ∷ bytes.now)) result }
{
    let price = read_last(bytes)?;
    match letter {
        b'C' => Ok(Event::Close(price)),
        b'O' => Ok(Event::Open(price)),
        b'L' => Ok(Event::Last(price)),
        _ => Err(Refusal::Shape),
    }
}

// An event, to the end of its line.
#[tactic(auto, using(crate::proofs::Fronts::patterns))]
fn read_event(bytes: &[u8]) -> Result<Event, Refusal>
    ensures { Reads event_text bytes.now result }
{
    match bytes {
        [letter, b'\t', rest @ ..] => read_priced_event(*letter, rest),
        [b'H', b'\n'] => Ok(Event::Halt),
        [b'R', b'\n'] => Ok(Event::Resume),
        _ => Err(Refusal::Shape),
    }
}

// The nine forms, each by what follows its letter and tab. Two forms with the same fields say different things, so each has its function.
fn read_series(bytes: &[u8]) -> Result<Line, Refusal>
    ensures { Reads written (under "S" bytes.now) result }
{
    let (class, rest) = read_field(bytes)?;
    let (kind, rest) = read_field(rest)?;
    let strike = read_last(rest)?;
    Ok(Line::Series(Terms {
        class,
        kind,
        strike,
    }))
}

fn read_nbbo(bytes: &[u8]) -> Result<Call, Refusal>
    ensures { Reads call_text (under "N" bytes.now) result }
{
    let (series, rest) = read_field(bytes)?;
    let (bid, rest) = read_field(rest)?;
    let offer = read_last(rest)?;
    Ok(Call::Nbbo {
        series,
        nbbo: Nbbo { bid, offer },
    })
}

fn read_tape(bytes: &[u8]) -> Result<Call, Refusal>
    ensures { Reads call_text (under "U" bytes.now) result }
{
    let (class, rest) = read_field(bytes)?;
    let event = read_event(rest)?;
    Ok(Call::Event { class, event })
}

fn read_order(bytes: &[u8]) -> Result<Call, Refusal>
    ensures { Reads call_text (under "O" bytes.now) result }
{
    let (series, rest) = read_field(bytes)?;
    let (side, rest) = read_field(rest)?;
    let (price, rest) = read_field(rest)?;
    let (size, rest) = read_field(rest)?;
    let condition = read_last(rest)?;
    Ok(Call::Order(Order {
        series,
        side,
        price,
        size,
        condition,
    }))
}

fn read_quote(bytes: &[u8]) -> Result<Call, Refusal>
    ensures { Reads call_text (under "Q" bytes.now) result }
{
    let (maker, rest) = read_field(bytes)?;
    let (series, rest) = read_field(rest)?;
    let (side, rest) = read_field(rest)?;
    let (price, rest) = read_field(rest)?;
    let size = read_last(rest)?;
    Ok(Call::Quote(Quote {
        maker,
        series,
        side,
        price,
        size,
    }))
}

fn read_enable(bytes: &[u8]) -> Result<Call, Refusal>
    ensures { Reads call_text (under "E" bytes.now) result }
{
    let (maker, rest) = read_field(bytes)?;
    let class = read_last(rest)?;
    Ok(Call::Enable { maker, class })
}

fn read_withdraw(bytes: &[u8]) -> Result<Call, Refusal>
    ensures { Reads call_text (under "X" bytes.now) result }
{
    let number = read_last(bytes)?;
    Ok(Call::Withdraw { number })
}

fn read_clock(bytes: &[u8]) -> Result<Call, Refusal>
    ensures { Reads call_text (under "T" bytes.now) result }
{
    let ms = read_last(bytes)?;
    Ok(Call::Clock { ms })
}

fn read_width(bytes: &[u8]) -> Result<Call, Refusal>
    ensures { Reads call_text (under "W" bytes.now) result }
{
    let (series, rest) = read_field(bytes)?;
    let (width, rest) = read_field(rest)?;
    let (first, rest) = read_field(rest)?;
    let second = read_last(rest)?;
    Ok(Call::Width(Update {
        series,
        width,
        first,
        second,
    }))
}

// What follows a tab, by the letter before it.
fn read_form(letter: u8, bytes: &[u8]) -> Result<Line, Refusal>
    ensures { Reads written (letter ∷ (9 ∷ bytes.now)) result }
{
    let call = match letter {
        b'S' => return read_series(bytes),
        b'N' => read_nbbo(bytes),
        b'U' => read_tape(bytes),
        b'O' => read_order(bytes),
        b'Q' => read_quote(bytes),
        b'E' => read_enable(bytes),
        b'X' => read_withdraw(bytes),
        b'T' => read_clock(bytes),
        b'W' => read_width(bytes),
        _ => Err(Refusal::Shape),
    };
    Ok(Line::Call(call?))
}

// The line that the bytes say: those of one whole line, its newline included.
#[tactic(auto, using(crate::proofs::Fronts::opens))]
pub fn read_line(bytes: &[u8]) -> Result<Line, Refusal>
    ensures { Reads written bytes.now result }
{
    let [letter, b'\t', rest @ ..] = bytes else {
        return Err(Refusal::Shape);
    };
    read_form(*letter, rest)
}
