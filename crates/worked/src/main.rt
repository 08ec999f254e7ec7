// Asks the real code the prices at the edge and the published examples of the rules, and prints for each what was asked and
// what was answered.
#![tactic(auto)]

use edges::prices_at_the_edge;
use std::io;

mod answers;
mod at_the_edge;
mod published;
mod text;
mod widths;

fn main(rt: HostRuntime) -> io::Result<()> {
    let count = prices_at_the_edge();
    println!(rt; "{count} prices at the edge")?;
    at_the_edge::run(&rt)?;
    println!(rt; "Published examples of quotes")?;
    published::quotes(&rt)?;
    println!(rt; "Published examples of limit orders")?;
    published::orders(&rt)?;
    println!(rt; "Published examples of collars")?;
    widths::published(&rt)?;
    println!(rt; "A width changed by two officials")?;
    widths::update(&rt)
}
