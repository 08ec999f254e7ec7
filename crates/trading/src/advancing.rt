// The clock moves on: held orders that fall due move, one collar each.
ghost use Rattle.std.specs.Prelude.{◌≡◌, ℕ, ◌+◌, ◌≤◌};
ghost use Rattle.book.specs.Rows.{row_of};
ghost use Rattle.book.specs.Dues.{earliest};
ghost use Rattle.book.specs.Books.{rows};
ghost use Rattle.trading.specs.Desks.{move_found, advance};
ghost use Rattle.trading.specs.Rests.{AtRest, MayMove, due_by};
ghost use Rattle.trading.specs.Pits.{rows_in, desk_in, Deals};

use crate::pit::Pit;
use book::book::Book;
use book::row::{Due, Standing};

// The due entry that comes first, if it is due by the clock.
fn first_due(book: &Book, clock: u32) -> Option<Due>
    ensures { result ≡ due_by clock (earliest (rows book.now)) }
{
    book.earliest_due().filter(|due| due.moment <= clock)
}

impl Pit<'_, '_> {
    // The order of the entry moves its collar onward, not past its limit, and its series is served.
    fn turn(&mut self, entry: Due, clock: u32)
        requires clock { clock ≤ 100000000 }
        requires due { entry.moment ≤ clock }
        requires clear { MayMove entry (rows_in self.old) }
        ensures { Deals self.old self.new (move_found clock entry.moment (row_of entry.number (rows_in self.old)) (desk_in self.old)) }
    {
        let Some(row) = self.book.row(entry.number) else {
            return;
        };
        let Standing::Held { collar, .. } = row.standing else {
            return;
        };
        let display = row.side.onward(row.display, collar, row.limit);
        let due = entry.moment + 1_000;
        self.book.move_display(row.number, display, due);
        self.serve(row.series, clock + 1_000);
    }

    // While the order that is due first is due by the clock, it moves.
    pub fn advance(&mut self, clock: u32)
        requires clock { clock ≤ 100000000 }
        requires rest { (before : ℕ) × AtRest before 1000000 (rows_in self.old) × (before ≤ clock) × (clock ≤ before + 1000) }
        ensures { Deals self.old self.new (advance clock (desk_in self.old)) }
    {
        while let Some(entry) = first_due(self.book, clock) {
            self.turn(entry, clock);
        }
    }
}
