// The width of a series' collar.
ghost use Rattle.std.specs.Prelude.{◌≡◌, None};
ghost use Rattle.collars.specs.Collars.{ladder, width_by};

use crate::update::Approved;
use values::side::Price;

// The width by the national best bid.
pub fn ladder(bid: Price) -> Price
    ensures { result ≡ ladder bid }
{
    match bid {
        bid if bid < 200 => 25,
        bid if bid <= 500 => 40,
        bid if bid <= 1_000 => 50,
        bid if bid <= 2_000 => 80,
        _ => 100,
    }
}

// What a series' width goes by.
#[derive(Clone, Copy)]
pub struct Settings {
    // The width that an update gave; none where the series goes by the ladder.
    width: Option<Price>,
}

impl Settings {
    // By the ladder.
    pub fn new() -> Settings
        ensures { result.width ≡ None }
    {
        Settings { width: None }
    }

    // The width while the national best bid is `bid`.
    pub fn width(&self, bid: Price) -> Price
        ensures { result ≡ width_by self.now.width bid }
    {
        self.width.unwrap_or_else(|| ladder(bid))
    }

    // Puts an update in force, which spends it.
    pub fn put_in_force(&mut self, update: Approved)
        ensures { self.new.width ≡ update.width }
    {
        self.width = update.width();
    }
}
