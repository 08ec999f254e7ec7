// Cutting input into lines, a block of bytes at a time.
ghost use Rattle.std.specs.Prelude.{◌≡◌, ◌-◌, ◌<◌, false, ◌||◌, ◌++◌, length, take, drop, IfSome, nat_lt};
ghost use Rattle.wire.specs.Splitting.{newline_at, items, left, goes_on, answers, Onward, kept, AnswersTheLines};

use std::mem;
use wire_format::line::LONGEST;

// What comes first in a block.
#[derive(Clone, Copy)]
pub enum Piece<'a> {
    // A line with its newline, of at most 80 bytes.
    Whole(&'a [u8]),
    // The end of a line of more than 80 bytes, which is passed over.
    Long,
    // No newline yet.
    Unended,
}

// Cuts input into lines. The bytes that it leaves stand before the input that comes next.
#[derive(Drop)]
pub struct Splitter {
    // A line that is too long has begun, and its bytes are passed over up to its newline. A plain flag: no value goes with it.
    pub passing: bool,
}

// Where the first newline stands.
fn find_newline(block: &[u8]) -> Option<usize>
    ensures first { result ≡ newline_at block.now }
    ensures within { IfSome result (λ at. at < length block.now) }
{
    block.iter().position(|byte| *byte == b'\n')
}

// The law of splitters, for one that passes over no line: however its input comes, it answers the lines of the input.
fn answers_the_lines()
    ensures { AnswersTheLines false }
{}

impl Splitter {
    pub fn new() -> Splitter
        ensures fresh { result.passing ≡ false }
        ensures lines { AnswersTheLines result.passing }
    {
        answers_the_lines();
        Splitter { passing: false }
    }

    // Takes the first line off the block, and gives it with what is left. Where none ends there, what is left is what has come of
    // a line that may still be short enough, under 80 bytes.
    pub fn next<'a>(&mut self, block: &'a [u8]) -> (Piece<'a>, &'a [u8])
        ensures answers { answers result.0 ≡ items self.old.passing block.now (newline_at block.now) }
        ensures left { result.1.now ≡ left self.old.passing block.now (newline_at block.now) }
        ensures onward { Onward result.0 result.1.now block.now }
        ensures passing { self.new.passing ≡ goes_on self.old.passing block.now (newline_at block.now) }
    {
        match find_newline(block) {
            Some(at) => {
                let (line, rest) = block.split_at(at + 1);
                let long = mem::take(&mut self.passing) || line.len() > LONGEST;
                let piece = if long {
                    Piece::Long
                } else {
                    Piece::Whole(line)
                };
                (piece, rest)
            }
            None => {
                self.passing = self.passing || block.len() >= LONGEST;
                (Piece::Unended, if self.passing { &[] } else { block })
            }
        }
    }

    // At the end of the input, where `rest` was left: whether a line is not ended, to be answered once.
    pub fn unended(&self, rest: &[u8]) -> bool
        ensures { result ≡ self.now.passing || nat_lt 0 (length rest.now) }
    {
        self.passing || !rest.is_empty()
    }
}

// Moves the last `count` bytes before `end` to the front of the buffer, so that the input that comes next is read after them, and
// says how many were moved: none where there are not so many.
pub fn keep_last(buffer: &mut [u8], end: usize, count: usize) -> usize
    ensures count { result ≡ kept buffer.old end count }
    ensures bytes { buffer.new ≡ take result (drop (end - result) buffer.old) ++ drop result buffer.old }
{
    if end > buffer.len() || count > end {
        return 0;
    }
    let start = end - count;
    buffer.copy_within(start..end, 0);
    count
}
