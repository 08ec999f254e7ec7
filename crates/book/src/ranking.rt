// How rows are ranked, and which may rest together.
ghost use Rattle.std.specs.Prelude.{◌≡◌, not};
ghost use Rattle.book.specs.Rows.{agrees, better, meets, not_before, precedes, same_maker, stands_at};

use crate::row::{Row, Standing};
use values::side::{Price, Side};

impl Row {
    // Whether it comes before another in the order of all rows: by series, bids before offers, the better one first.
    // Field by field: as one comparison of tuples an insertion with 8 rows takes 2 to 5 ns more, of some 70 (bench/book).
    pub(crate) fn comes_before(&self, other: &Row) -> bool
        ensures { result ≡ precedes self.now other.now }
    {
        self.series < other.series
            || self.series == other.series
                && (self.side < other.side || self.side == other.side && self.is_better_than(other))
    }

    // Whether it is the better row, of two on one side of a series: the more aggressive display price, then the lower number.
    fn is_better_than(&self, other: &Row) -> bool
        ensures { result ≡ better self.now other.now }
    {
        !self.side.no_more_aggressive(self.display, other.display)
            || self.display == other.display && self.number < other.number
    }

    // Whether it stands before all rows on the side of the series. Field by field: with a comparison of tuples here an immediate order that
    // meets nobody takes half as much time again.
    pub(crate) fn stands_before(&self, series: u8, side: Side) -> bool
        ensures { result ≡ not (not_before series side self.now) }
    {
        self.series < series || self.series == series && self.side < side
    }

    // Whether it stands on the side of the series.
    pub(crate) fn stands_at(&self, series: u8, side: Side) -> bool
        ensures { result ≡ stands_at series side self.now }
    {
        self.series == series && self.side == side
    }

    // Whether it stands on the contra side of the series, within the reach of the side.
    fn is_met_from(&self, series: u8, side: Side, reach: Price) -> bool
        ensures { result ≡ meets series side reach self.now }
    {
        self.stands_at(series, side.opposite()) && side.no_more_aggressive(self.display, reach)
    }

    // Whether the two rows may rest together.
    pub(crate) fn agrees_with(&self, other: &Row) -> bool
        ensures { result ≡ agrees self.now other.now }
    {
        self.number != other.number
            && !other.is_met_from(self.series, self.side, self.display)
            && !(other.stands_at(self.series, self.side)
                && self.standing.is_same_maker(other.standing))
    }
}

impl Standing {
    // Whether both are quotes of one maker.
    fn is_same_maker(self, other: Standing) -> bool
        ensures { result ≡ same_maker self other }
    {
        matches!((self, other), (Standing::Quote { maker }, Standing::Quote { maker: k }) if maker == k)
    }
}
