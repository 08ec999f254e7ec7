// Feeding an input to what answers its lines, a block at a time.
ghost use Rattle.std.specs.Prelude.{◌≡◌, ℕ, ◌-◌, ◌<◌, ◌≤◌, List, [], length, take, drop, IfOk, OnOk};
ghost use Rattle.std.specs.Io.KnownBytes.{Appends};
ghost use Rattle.std.specs.Option.{option_copied};
ghost use Rattle.wire.specs.Splitting.{Item, at_end};
ghost use Rattle.wire.specs.Feeding.{Adds, AnswersAll, AnswersBlock, AnswersInput, ReadsMore};

use crate::split::{Piece, Splitter, keep_last};
use std::alloc::Global;
use std::io;
use std::io::{Read, Write};

// How much is read at a time.
const BLOCK: usize = 65_536;

// What answers the lines of an input.
pub trait Answerer {
    // What it may become at a line, and what it may answer.
    ghost answers: { Self → Item → Self → List ℕ → Type 0 };

    // Appends the answer to a line, by its bytes with their newline; or to one that is broken whatever its bytes.
    fn answer(&mut self, line: Option<&[u8]>, out: &mut Vec<u8>) -> io::Result<()>
        ensures { OnOk result (Adds answers (self.old, out.old.items) (option_copied line.entry) (self.new, out.new.items)) };
}

// Answers the lines that end in the block, and says how many of its bytes are left. (What answers, the splitter and the answers so far go
// on together: a struct of three loans would be named three times over in each clause, and is no plainer.)
fn answer_lines<A: Answerer>(
    answerer: &mut A,
    splitter: &mut Splitter,
    block: &[u8],
    out: &mut Vec<u8>,
) -> io::Result<usize>
    ensures left { IfOk result (λ left. (left ≤ length block.now) × (left < 80)) }
    ensures answers { IfOk result (λ left. AnswersBlock A.answers answerer.old answerer.new splitter.old.passing splitter.new.passing block.now (drop (length block.now - left) block.now) out.old.items out.new.items) }
{
    let mut rest = block;
    loop {
        let (piece, left) = splitter.next(rest);
        rest = left;
        let line = match piece {
            Piece::Whole(line) => Some(line),
            Piece::Long => None,
            Piece::Unended => return Ok(rest.len()),
        };
        answerer.answer(line, out)?;
    }
}

// At the end of the input, where `rest` was left: a line that is not ended is answered.
fn answer_end<A: Answerer>(
    answerer: &mut A,
    splitter: &Splitter,
    rest: &[u8],
    out: &mut Vec<u8>,
) -> io::Result<()>
    ensures { OnOk result (AnswersAll A.answers answerer.old (at_end splitter.now.passing rest.now) answerer.new out.old.items out.new.items) }
{
    if splitter.unended(rest) {
        answerer.answer(None, out)?;
    }
    Ok(())
}

// Reads more input after the first `held` bytes of the buffer, and says how many stand there then: no more at the end of it.
fn read_more<R: Read>(from: &mut R, buffer: &mut [u8], held: usize) -> io::Result<usize>
    requires { held < length buffer.old }
    ensures within { IfOk result (λ end. (held ≤ end) × (end ≤ length buffer.new)) }
    ensures bytes { IfOk result (λ end. ReadsMore (R.remaining from.old) (R.remaining from.new) (take held buffer.old) (take end buffer.new)) }
{
    let count = from.read(&mut buffer[held..])?;
    Ok(held + count)
}

// Answers the lines that end in the first `end` bytes, and keeps what is left at the front of the buffer: says how much that is.
fn answer_block<A: Answerer>(
    answerer: &mut A,
    splitter: &mut Splitter,
    buffer: &mut [u8],
    end: usize,
    out: &mut Vec<u8>,
) -> io::Result<usize>
    requires { end ≤ length buffer.old }
    ensures short { IfOk result (λ held. held < 80) }
    ensures answers { IfOk result (λ held. AnswersBlock A.answers answerer.old answerer.new splitter.old.passing splitter.new.passing (take end buffer.old) (take held buffer.new) out.old.items out.new.items) }
{
    let left = answer_lines(answerer, splitter, &buffer[..end], out)?;
    Ok(keep_last(buffer, end, left))
}

// Writes the answers out.
fn write_out<W: Write>(to: &mut W, out: &mut Vec<u8>) -> io::Result<()>
    ensures { OnOk result (Appends (W.contents to.old) (W.contents to.new) out.old.items × (out.new.items ≡ [])) }
{
    to.write_all(out.as_slice())?;
    to.flush()?;
    out.clear();
    Ok(())
}

// Answers the whole input. What is left of a block stands at the front of the buffer, and the next is read after it.
fn answer_blocks<R: Read, W: Write, A: Answerer>(
    from: &mut R,
    to: &mut W,
    answerer: &mut A,
    buffer: &mut [u8],
    out: &mut Vec<u8>,
) -> io::Result<()>
    requires buffer { length buffer.old ≡ 65536 }
    requires out { out.old.items ≡ [] }
    ensures { OnOk result (AnswersInput A.answers answerer.old answerer.new (R.remaining from.old) (W.contents to.old) (W.contents to.new)) }
{
    let mut splitter = Splitter::new();
    let mut held = 0;
    // So many turns at most, since a loop has to be seen to end; nothing is indexed.
    for _ in 0..u64::MAX {
        let end = read_more(from, buffer, held)?;
        if end == held {
            break;
        }
        held = answer_block(answerer, &mut splitter, buffer, end, out)?;
        write_out(to, out)?;
    }
    answer_end(answerer, &splitter, &buffer[..held], out)?;
    write_out(to, out)
}

// Answers the whole input, and every whole line of it before it waits for more. It holds one block of input and its answers,
// however long a line is.
pub fn feed<R: Read, W: Write, A: Answerer>(
    heap: Global,
    from: &mut R,
    to: &mut W,
    answerer: &mut A,
) -> io::Result<()>
    ensures { OnOk result (AnswersInput A.answers answerer.old answerer.new (R.remaining from.old) (W.contents to.old) (W.contents to.new)) }
{
    let mut buffer = vec![in heap; 0u8; BLOCK]?;
    let mut out = Vec::with_capacity(heap, BLOCK)?;
    answer_blocks(from, to, answerer, buffer.as_mut_slice(), &mut out)
}
