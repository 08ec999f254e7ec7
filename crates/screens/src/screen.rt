// What it is to be a screen.
ghost use Rattle.std.specs.Prelude.{◌≡◌, ℕ};
ghost use Rattle.values.specs.declared.side.Side.{Side};
ghost use Rattle.screens.specs.declared.view.View.{View};
ghost use Rattle.screens.specs.declared.view.Extent.{Extent};
ghost use Rattle.screens.specs.Screens.{Lawful};
ghost use Rattle.screens.specs.Views.{Verdict, ruling_by};

use crate::view::{Ruling, Verdict, View};
use values::side::{Price, Side};

// A screen passes or refuses a price on one side of a series, by what it is shown of the series. What is asked stands as three
// arguments, as its meaning has them; only lists of questions, as in the program `worked`, need a record.
pub trait Screen {
    // its answer for every view, side and price
    ghost meaning: { Self → View → Side → ℕ → Verdict };

    fn ask(&self, view: &View, side: Side, price: Price) -> Verdict
        ensures { result ≡ meaning self.now view.now side price };

    // where a price is refused, every more aggressive one is refused in that view
    ghost of_screens: { (x : Self) → Lawful (meaning x) };
}

// A screen of quotes also says how far each of its refusals reaches.
pub trait QuoteScreen: Screen {
    ghost extent: { Self → View → Side → ℕ → Extent };

    fn judge(&self, view: &View, side: Side, price: Price) -> Ruling
        ensures { result ≡ ruling_by (Self.Screen.meaning self.now view.now side price) (extent self.now view.now side price) };
}
