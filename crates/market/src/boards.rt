// What is in force for each series: its national best bid and offer, and what its width goes by.
ghost use Rattle.std.specs.Prelude.{◌≡◌, false};
ghost use Rattle.market.specs.Tests.{crossed};

use collars::collar::Settings;
use values::nbbo::Nbbo;

pub mod keeping;

// What is in force for one series. The national best bid does not lie above the offer.
#[derive(Clone, Copy)]
pub struct Board {
    nbbo: Nbbo,
    settings: Settings,
    ghost orderly: { crossed nbbo.bid nbbo.offer ≡ false },
}

// A board for each series, by number.
#[derive(Drop)]
pub struct Boards {
    of: [Board; 64],
}
