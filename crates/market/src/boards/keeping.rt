// What is asked of the boards, and changed on them.
ghost use Rattle.std.specs.Prelude.{◌≡◌, ℕ, false, None};
ghost use Rattle.values.specs.Nbbos.{absent};
ghost use Rattle.market.specs.States.{set};
ghost use Rattle.market.specs.Tests.{crossed};
ghost use Rattle.market.specs.Boards.{board_at, nbbo_at, width_at};
ghost use Rattle.market.specs.Calls.{priced};

use crate::boards::{Board, Boards};
use crate::number::SeriesNumber;
use collars::collar::Settings;
use collars::pricing::{Pricing, price_order};
use collars::update::Approved;
use values::nbbo::Nbbo;
use values::side::{Price, Side};

impl Board {
    // Both sides are absent, and the width goes by the ladder.
    pub fn new() -> Board
        ensures nbbo { result.nbbo ≡ absent }
        ensures width { result.settings.width ≡ None }
    {
        Board {
            nbbo: Nbbo::absent(),
            settings: Settings::new(),
        }
    }

    // The national best bid and offer.
    pub fn nbbo(&self) -> Nbbo
        ensures { result ≡ self.now.nbbo }
    {
        self.nbbo
    }

    // What the width goes by.
    pub fn settings(&self) -> Settings
        ensures { result ≡ self.now.settings }
    {
        self.settings
    }

    // How a day order is priced.
    pub fn price(&self, side: Side, limit: Price) -> Pricing
        ensures { result ≡ priced self.now.settings.width side limit self.now.nbbo }
    {
        self.nbbo.bid.map_or(Pricing::AtLimit { limit }, |bid| {
            price_order(side, limit, &self.nbbo, self.settings.width(bid))
        })
    }

    // Puts an update of the series in force, which spends it.
    fn put_in_force(&mut self, update: Approved)
        ensures width { self.new.settings.width ≡ update.width }
        ensures nbbo { self.new.nbbo ≡ self.old.nbbo }
    {
        self.settings.put_in_force(update);
    }
}

impl Boards {
    // Both sides of every series are absent, and every series goes by the ladder.
    pub fn new() -> Boards
        ensures nbbos { nbbo_at result ≡ (λ s. absent) }
        ensures widths { width_at result ≡ (λ s. None) }
    {
        Boards {
            of: [Board::new(); 64],
        }
    }

    // The board of a series.
    pub fn board(&self, series: SeriesNumber) -> Board
        ensures { result ≡ board_at self.now series.value }
    {
        self.of[usize::from(series.get())]
    }

    // Sets a series' national best bid and offer, of which the bid is not the higher.
    pub fn set_nbbo(&mut self, series: SeriesNumber, nbbo: Nbbo)
        requires { crossed nbbo.bid nbbo.offer ≡ false }
        ensures nbbos { nbbo_at self.new ≡ set series.value nbbo (nbbo_at self.old) }
        ensures widths { width_at self.new ≡ width_at self.old }
    {
        self.of[usize::from(series.get())].nbbo = nbbo;
    }

    // Puts an update in force for its series.
    pub fn put_in_force(&mut self, series: SeriesNumber, update: Approved)
        ensures widths { width_at self.new ≡ set series.value update.width (width_at self.old) }
        ensures nbbos { nbbo_at self.new ≡ nbbo_at self.old }
    {
        self.of[usize::from(series.get())].put_in_force(update);
    }
}
