// Serving a series: its held orders take what has come within their reach.
ghost use Rattle.std.specs.Prelude.{◌≡◌, Bool, Some};
ghost use Rattle.book.specs.Rows.{row_of};
ghost use Rattle.trading.specs.Desks.{serve_standing, serve};
ghost use Rattle.trading.specs.Doing.{held_in};
ghost use Rattle.trading.specs.Pits.{rows_in, desk_in, Deals};

use crate::pit::Pit;
use book::places::Wanted;
use book::row::{Row, Standing, Taker};

// The held orders of a series.
#[derive(Clone, Copy)]
struct HeldIn {
    series: u8,
}

impl Wanted<Row> for HeldIn {
    ghost wants = { λ s r. held_in s.series r };

    fn wants(&self, item: Row) -> bool {
        item.series == self.series && matches!(item.standing, Standing::Held { .. })
    }
}

impl Pit<'_, '_> {
    // A held order takes up to its collar beyond its display price, not past its limit. Other rows do nothing.
    fn serve_row(&mut self, row: Row, due: u32)
        requires rests { row_of row.number (rows_in self.old) ≡ Some row }
        ensures { Deals self.old self.new (serve_standing due row.standing row (desk_in self.old)) }
    {
        if let Standing::Held { collar, .. } = row.standing {
            let taker = Taker {
                number: row.number,
                series: row.series,
                side: row.side,
                reach: row.side.onward(row.display, collar, row.limit),
            };
            let left = self.book.take(taker, row.size, due, self.trades);
            self.book.settle(row.number, row.size - left, due);
        }
    }

    // Each held order of the series takes what it can, the lowest number first. A held order that trades is due at `due`.
    pub fn serve(&mut self, series: u8, due: u32)
        ensures { Deals self.old self.new (serve due series (desk_in self.old)) }
    {
        let wanted = HeldIn { series };
        let mut from = 1;
        while let Some(row) = self.book.lowest(from, &wanted) {
            self.serve_row(row, due);
            from = row.number + 1;
        }
    }
}
