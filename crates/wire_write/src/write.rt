// Writing: the bytes of a line, into the caller's bytes.
ghost use Rattle.std.specs.Prelude.{◌≡◌, ◌≤◌, [], ◌∷◌, take, Some, MatchResult};
ghost use Rattle.wire_format.specs.Format.{written, call_text, count, event_text, tab, newline};
ghost use Rattle.wire_format.specs.Writing.{writing, over, Refused};
ghost use Rattle.wire_write.specs.Tails.{made, Grows};

use crate::field::WriteField;
use crate::tail::Tail;
use values::call::{Call, Order, Quote, Terms, Update};
use values::nbbo::Nbbo;
use values::reference::Event;
use values::refusal::Refusal;
use values::side::Price;
use wire_format::line::Line;

// A price at the end of a line, and before it the letter of its event.
fn put_priced_event(letter: u8, price: Price, tail: &mut Tail) -> Result<(), Refusal>
    requires room { 12 ≤ tail.old.start }
    requires empty { made tail.old ≡ [] }
    ensures { Grows tail.old (tab (Some (letter ∷ [])) (newline (count price))) 12 result tail.new }
{
    price.put(tail, b'\n')?;
    tail.put_letter(letter, b'\t');
    Ok(())
}

// An event at the end of a line.
fn put_event(event: Event, tail: &mut Tail) -> Result<(), Refusal>
    requires room { 12 ≤ tail.old.start }
    requires empty { made tail.old ≡ [] }
    ensures { Grows tail.old (event_text event) 12 result tail.new }
{
    let letter = match event {
        Event::Close(price) => return put_priced_event(b'C', price, tail),
        Event::Open(price) => return put_priced_event(b'O', price, tail),
        Event::Last(price) => return put_priced_event(b'L', price, tail),
        Event::Halt => b'H',
        Event::Resume => b'R',
    };
    tail.put_letter(letter, b'\n');
    Ok(())
}

// The nine forms, each from its last field to its letter. Two forms with the same fields say different things, so each has its function.
// Each asks for an empty tail: one that each form made would go by value from function to function, 88 bytes copied at each step.
fn put_series(terms: Terms, tail: &mut Tail) -> Result<(), Refusal>
    requires room { tail.old.start ≡ 80 }
    requires empty { made tail.old ≡ [] }
    ensures { Grows tail.old (written (Line.Series terms)) 80 result tail.new }
{
    terms.strike.put(tail, b'\n')?;
    terms.kind.put(tail, b'\t')?;
    terms.class.put(tail, b'\t')?;
    tail.put_letter(b'S', b'\t');
    Ok(())
}

fn put_nbbo(series: u32, nbbo: Nbbo, tail: &mut Tail) -> Result<(), Refusal>
    requires room { tail.old.start ≡ 80 }
    requires empty { made tail.old ≡ [] }
    ensures { Grows tail.old (call_text (Call.Nbbo series nbbo)) 80 result tail.new }
{
    nbbo.offer.put(tail, b'\n')?;
    nbbo.bid.put(tail, b'\t')?;
    series.put(tail, b'\t')?;
    tail.put_letter(b'N', b'\t');
    Ok(())
}

fn put_tape(class: u32, event: Event, tail: &mut Tail) -> Result<(), Refusal>
    requires room { tail.old.start ≡ 80 }
    requires empty { made tail.old ≡ [] }
    ensures { Grows tail.old (call_text (Call.Event class event)) 80 result tail.new }
{
    put_event(event, tail)?;
    class.put(tail, b'\t')?;
    tail.put_letter(b'U', b'\t');
    Ok(())
}

fn put_order(order: Order, tail: &mut Tail) -> Result<(), Refusal>
    requires room { tail.old.start ≡ 80 }
    requires empty { made tail.old ≡ [] }
    ensures { Grows tail.old (call_text (Call.Order order)) 80 result tail.new }
{
    order.condition.put(tail, b'\n')?;
    order.size.put(tail, b'\t')?;
    order.price.put(tail, b'\t')?;
    order.side.put(tail, b'\t')?;
    order.series.put(tail, b'\t')?;
    tail.put_letter(b'O', b'\t');
    Ok(())
}

fn put_quote(quote: Quote, tail: &mut Tail) -> Result<(), Refusal>
    requires room { tail.old.start ≡ 80 }
    requires empty { made tail.old ≡ [] }
    ensures { Grows tail.old (call_text (Call.Quote quote)) 80 result tail.new }
{
    quote.size.put(tail, b'\n')?;
    quote.price.put(tail, b'\t')?;
    quote.side.put(tail, b'\t')?;
    quote.series.put(tail, b'\t')?;
    quote.maker.put(tail, b'\t')?;
    tail.put_letter(b'Q', b'\t');
    Ok(())
}

fn put_enable(maker: u32, class: u32, tail: &mut Tail) -> Result<(), Refusal>
    requires room { tail.old.start ≡ 80 }
    requires empty { made tail.old ≡ [] }
    ensures { Grows tail.old (call_text (Call.Enable maker class)) 80 result tail.new }
{
    class.put(tail, b'\n')?;
    maker.put(tail, b'\t')?;
    tail.put_letter(b'E', b'\t');
    Ok(())
}

fn put_withdraw(number: u32, tail: &mut Tail) -> Result<(), Refusal>
    requires room { tail.old.start ≡ 80 }
    requires empty { made tail.old ≡ [] }
    ensures { Grows tail.old (call_text (Call.Withdraw number)) 80 result tail.new }
{
    number.put(tail, b'\n')?;
    tail.put_letter(b'X', b'\t');
    Ok(())
}

fn put_clock(ms: u32, tail: &mut Tail) -> Result<(), Refusal>
    requires room { tail.old.start ≡ 80 }
    requires empty { made tail.old ≡ [] }
    ensures { Grows tail.old (call_text (Call.Clock ms)) 80 result tail.new }
{
    ms.put(tail, b'\n')?;
    tail.put_letter(b'T', b'\t');
    Ok(())
}

fn put_width(update: Update, tail: &mut Tail) -> Result<(), Refusal>
    requires room { tail.old.start ≡ 80 }
    requires empty { made tail.old ≡ [] }
    ensures { Grows tail.old (call_text (Call.Width update)) 80 result tail.new }
{
    update.second.put(tail, b'\n')?;
    update.first.put(tail, b'\t')?;
    update.width.put(tail, b'\t')?;
    update.series.put(tail, b'\t')?;
    tail.put_letter(b'W', b'\t');
    Ok(())
}

fn put_call(call: Call, tail: &mut Tail) -> Result<(), Refusal>
    requires room { tail.old.start ≡ 80 }
    requires empty { made tail.old ≡ [] }
    ensures { Grows tail.old (call_text call) 80 result tail.new }
{
    match call {
        Call::Nbbo { series, nbbo } => put_nbbo(series, nbbo, tail),
        Call::Event { class, event } => put_tape(class, event, tail),
        Call::Order(order) => put_order(order, tail),
        Call::Quote(quote) => put_quote(quote, tail),
        Call::Enable { maker, class } => put_enable(maker, class, tail),
        Call::Withdraw { number } => put_withdraw(number, tail),
        Call::Clock { ms } => put_clock(ms, tail),
        Call::Width(update) => put_width(update, tail),
    }
}

fn put_line(line: Line, tail: &mut Tail) -> Result<(), Refusal>
    requires room { tail.old.start ≡ 80 }
    requires empty { made tail.old ≡ [] }
    ensures { Grows tail.old (written line) 80 result tail.new }
{
    match line {
        Line::Series(terms) => put_series(terms, tail),
        Line::Call(call) => put_call(call, tail),
    }
}

// Writes the line at the front of `out`, and says how many bytes it has. A line that cannot be written is refused first, then
// an `out` with no room for the longest line; a refusal writes nothing.
pub fn write_line(line: Line, out: &mut [u8]) -> Result<usize, Refusal>
    ensures answer { result ≡ writing (written line) out.old }
    ensures bytes { out.new ≡ over (written line) out.old }
    ensures cases { MatchResult result (λ size. (written line ≡ Some (take size out.new)) × (size ≤ 80)) (λ e. Refused (written line) out.old e) }
{
    let mut tail = Tail::empty();
    put_line(line, &mut tail)?;
    tail.place(out)
}
