// The book: its rows and their due list.
ghost use Rattle.std.specs.Prelude.{◌≡◌, true};
ghost use Rattle.book.specs.Dues.{due_list, same_dues};
ghost use Rattle.book.specs.Listings.{ranked, waiting};

use crate::awaiting::Dues;
use crate::resting::Rows;

pub mod keeping;
pub mod taking;

// The due list is that of the rows: exactly the held orders have one entry each, at their moment.
#[derive(Drop)]
pub struct Book {
    resting: Rows,
    awaiting: Dues,
    ghost tied: { same_dues (waiting awaiting) (due_list (ranked resting)) ≡ true },
}
