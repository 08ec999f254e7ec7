// Rounds of one withdrawal and one insertion in a book with a number of rows resting, for the benchmark in bench/book.
#![tactic(auto)]

ghost use Rattle.std.specs.Prelude.{◌≡◌, ◌+◌, ◌<◌, ◌≤◌, length};
ghost use Rattle.book.specs.Books.{rows};
ghost use Rattle.book_speed.specs.Tame.{Drawn, Tame};

use book::book::Book;
use book::row::{Row, Standing};
use values::side::Side;

// The next of a row of numbers that look random.
fn draw(seed: &mut u64) -> u32 {
    *seed = seed
        .wrapping_mul(6364136223846793005)
        .wrapping_add(1442695040888963407);
    ((*seed >> 33) & 0x7fff_ffff) as u32
}

// A plain order somewhere on one of the two sides of one of the series.
fn drawn(seed: &mut u64, spread: u8, number: u32) -> Row
    requires { 0 < spread }
    ensures { Drawn number result }
{
    let series = (draw(seed) % spread as u32) as u8;
    let cents = draw(seed) % 999;
    let (side, display) = if draw(seed) % 2 == 0 {
        (Side::Buy, cents)
    } else {
        (Side::Sell, 2000 + cents)
    };
    Row {
        number,
        series,
        side,
        display,
        limit: display,
        size: 10,
        standing: Standing::Plain,
    }
}

// One insertion, where there is a place: the number that comes next.
fn add(book: &mut Book, seed: &mut u64, spread: u8, next: u32) -> u32
    requires spread { 0 < spread }
    requires tame { Tame next (rows book.old) }
    ensures { Tame result (rows book.new) }
{
    if book.len() < 256 && next < u32::MAX {
        book.insert(drawn(seed, spread, next));
        next + 1
    } else {
        next
    }
}

// A book with `rest` rows in `spread` series, and then `rounds` rounds, each of which withdraws one of the rows and inserts another: how
// many rows were withdrawn.
#[unsafe(no_mangle)]
pub extern "C" fn book_rounds(rest: u32, spread: u8, rounds: u32) -> u32 {
    if rest == 0 || rest > 256 || spread == 0 {
        return 0;
    }
    let mut book = Book::new();
    let mut seed = 12345u64;
    let mut next = 1;
    let mut resting = [0u32; 256];
    for place in &mut resting[..rest as usize] {
        *place = next;
        next = add(&mut book, &mut seed, spread, next);
    }
    let mut withdrawn = 0u32;
    // so many turns; nothing is indexed
    for _ in 0..rounds {
        let k = (draw(&mut seed) % rest) as usize;
        if book.withdraw(resting[k]).is_some() {
            withdrawn = withdrawn.wrapping_add(1);
        }
        resting[k] = next;
        next = add(&mut book, &mut seed, spread, next);
    }
    withdrawn
}
