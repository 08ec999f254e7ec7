// The floor: the book with its clock and the next number, as it stands between calls.
ghost use Rattle.std.specs.Prelude.{◌≡◌, ◌≤◌, true};
ghost use Rattle.book.specs.Lists.{every};
ghost use Rattle.book.specs.Books.{rows};
ghost use Rattle.trading.specs.Rests.{AtRest, in_series};

use book::book::Book;

pub mod keeping;

// Between calls numbers are below the next, each held order has been served, and falls due within a second after the clock;
// and every row is of one of 64 series.
#[derive(Drop)]
pub struct Floor {
    book: Book,
    // In milliseconds, at most 100,000,000.
    clock: u32,
    // The number that the next order or quote takes: 1 to 1,000,000, where all 999,999 are used.
    next: u32,
    ghost clocked: { clock ≤ 100000000 },
    ghost begun: { 1 ≤ next },
    ghost ended: { next ≤ 1000000 },
    ghost rest: { AtRest clock next (rows book) },
    ghost listed: { every in_series (rows book) ≡ true },
}
