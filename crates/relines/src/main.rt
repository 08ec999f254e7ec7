// Reads lines from standard input, and writes each good line again as it was, and for each broken one the word `shape`.
#![tactic(auto)]

ghost use Rattle.std.specs.Prelude.{◌≡◌, ◌++◌, OnOk};
ghost use Rattle.relines.specs.Answers.{Answers, Says, word};

use std::alloc::AllocError;
use std::io;
use wire::again::rewrite_line;
use wire::feed::{Answerer, feed};
use wire_format::line::LONGEST;

fn refuse(out: &mut Vec<u8>) -> Result<(), AllocError>
    ensures { OnOk result (out.new.items ≡ out.old.items ++ word) }
{
    out.extend_from_slice(b"shape\n")
}

// Answers one line, its newline included.
fn answer(line: &[u8], out: &mut Vec<u8>) -> Result<(), AllocError>
    ensures { OnOk result (Answers line.now out.old.items out.new.items) }
{
    let mut text = [0u8; LONGEST];
    match rewrite_line(line, &mut text) {
        Ok(size) => out.extend_from_slice(&text[0..size]),
        Err(_) => refuse(out),
    }
}

// Answers each line by itself.
#[derive(Clone, Copy)]
struct Rewriter;

impl Answerer for Rewriter {
    ghost answers = { λ _ item _ text. Says item text };

    fn answer(&mut self, line: Option<&[u8]>, out: &mut Vec<u8>) -> io::Result<()> {
        match line {
            Some(line) => answer(line, out)?,
            None => refuse(out)?,
        }
        Ok(())
    }
}

fn main(rt: HostRuntime) -> io::Result<()> {
    feed(rt.alloc(), &mut rt.stdin(), &mut rt.stdout(), &mut Rewriter)
}
