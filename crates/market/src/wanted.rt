// Which rows a call withdraws.
ghost use Rattle.std.specs.Prelude.{◌≡◌};
ghost use Rattle.book.specs.Rows.{numbered};
ghost use Rattle.market.specs.Tests.{is_mine, on_side};
ghost use Rattle.market.specs.Listings.{listed, class_in, mine_in};

use crate::listing::Listing;
use book::places::Wanted;
use book::row::{Row, Standing};
use values::side::Side;

// The row with a number.
#[derive(Clone, Copy)]
pub struct Numbered {
    pub number: u32,
}

impl Wanted<Row> for Numbered {
    ghost wants = { λ s r. numbered s.number r };

    fn wants(&self, item: Row) -> bool {
        item.number == self.number
    }
}

// Whether the row is a quote of the maker.
fn is_mine(maker: u8, standing: Standing) -> bool
    ensures { result ≡ is_mine maker standing }
{
    matches!(standing, Standing::Quote { maker: whose } if whose == maker)
}

// A maker's quote on one side of a series.
#[derive(Clone, Copy)]
pub struct OnSide {
    pub maker: u8,
    pub series: u8,
    pub side: Side,
}

impl Wanted<Row> for OnSide {
    ghost wants = { λ s r. on_side s.maker s.series s.side r };

    fn wants(&self, item: Row) -> bool {
        is_mine(self.maker, item.standing) && item.series == self.series && item.side == self.side
    }
}

// A maker's quotes in a class.
#[derive(Drop)]
pub struct InClass<'a> {
    pub maker: u8,
    pub class: u8,
    pub listing: &'a Listing,
}

impl<'a> Wanted<Row> for InClass<'a> {
    ghost wants = { λ s r. mine_in (listed s.listing.now) s.maker s.class r };

    fn wants(&self, item: Row) -> bool {
        is_mine(self.maker, item.standing) && self.listing.class_of(item.series).get() == self.class
    }
}
