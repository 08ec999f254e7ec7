// Reads lines from standard input or the file that its argument names, and prints after each line what it brought and its answer.
#![tactic(auto)]

use crate::desk::Desk;
use crate::help::HELP;
use std::fs::File;
use std::io::Write;
use std::{env, io};
use wire::feed::feed;

mod desk;
mod help;
mod print;
mod session;

// Answers standard input, or the file that the argument names; `--help` says what the lines are.
fn main(rt: HostRuntime) -> io::Result<()> {
    let mut words = env::args(&rt)?;
    words.next();
    let mut desk = Desk::new();
    match words.next() {
        None => feed(rt.alloc(), &mut rt.stdin(), &mut rt.stdout(), &mut desk),
        Some(word) => {
            if word.as_str() == "--help" {
                return rt.stdout().write_all(HELP.as_bytes());
            }
            let mut file = File::open(&rt, word.as_str())?;
            feed(rt.alloc(), &mut file, &mut rt.stdout(), &mut desk)
        }
    }
}
