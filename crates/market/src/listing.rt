// The series that a market lists, numbered from 0 in the order in which they were added.
ghost use Rattle.std.specs.Prelude.{◌≡◌, ◌≤◌, true, take};
ghost use Rattle.std.specs.List.{list_all};
ghost use Rattle.market.specs.Series.{known};

use crate::series::Series;

pub mod adding;

// At most 64 series, of classes that there are. The market has no heap, so they stand in a fixed array with a count.
#[derive(Drop)]
pub struct Listing {
    series: [Series; 64],
    count: usize,
    ghost few: { count ≤ 64 },
    ghost known: { list_all known (take count series) ≡ true },
}
