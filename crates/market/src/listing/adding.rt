// What is asked of a listing, and added to it.
ghost use Rattle.std.specs.Prelude.{◌≡◌, [], length, slice_get};
ghost use Rattle.market.specs.Numbers.{Names};
ghost use Rattle.market.specs.Listings.{listed, adding, added, series_in, class_in, terms_in};

use crate::listing::Listing;
use crate::number::{Class, SeriesNumber};
use crate::series::Series;
use crate::tests::bad_price;
use values::call::Terms;
use values::order::Kind;
use values::refusal::Refusal;
use values::side::Price;

// What stands in a place that no series takes. Nothing is asked of what it gives: a call names a series only after its test.
const NO_SERIES: Series = Series {
    class: 0,
    kind: Kind::Call,
    strike: 0,
};

impl Listing {
    // A listing without series.
    pub fn new() -> Listing
        ensures { listed result ≡ [] }
    {
        Listing {
            series: [NO_SERIES; 64],
            count: 0,
        }
    }

    // How many series there are.
    pub fn len(&self) -> usize
        ensures { result ≡ length (listed self.now) }
    {
        self.count
    }

    // The series with a number.
    pub fn get(&self, series: u32) -> Option<Series>
        ensures { result ≡ slice_get (listed self.now) series }
    {
        self.series[..self.count].get(series as usize).copied()
    }

    // The number of a series that is listed.
    pub fn number(&self, series: u32) -> Result<SeriesNumber, Refusal>
        ensures { Names (length (listed self.now)) series result }
    {
        if (series as usize) < self.count {
            Ok(SeriesNumber::new(series))
        } else {
            Err(Refusal::Name)
        }
    }

    // The series with a number. Where there is none, nothing is asked of what it gives.
    #[tactic(auto, using(crate::proofs::Hints::reads))]
    fn series(&self, series: u8) -> Series
        ensures { result ≡ series_in (listed self.now) series }
    {
        self.get(u32::from(series)).unwrap_or(NO_SERIES)
    }

    // The class of a series.
    pub fn class_of(&self, series: u8) -> Class
        ensures { result.value ≡ class_in (listed self.now) series }
    {
        Class::new(u32::from(self.series(series).class))
    }

    // The kind and the strike of a series.
    pub fn terms_of(&self, series: u8) -> (Kind, Price)
        ensures { result ≡ terms_in (listed self.now) series }
    {
        let series = self.series(series);
        (series.kind, series.strike)
    }

    // One series more, with the next number.
    pub fn add(&mut self, terms: Terms) -> Result<(), Refusal>
        ensures answer { result ≡ adding (listed self.old) terms }
        ensures after { listed self.new ≡ added (listed self.old) terms }
    {
        let class = Class::try_from(terms.class)?;
        if bad_price(terms.strike) {
            return Err(Refusal::Price);
        }
        if self.count >= 64 {
            return Err(Refusal::Late);
        }
        self.series[self.count] = Series {
            class: class.get(),
            kind: terms.kind,
            strike: terms.strike,
        };
        self.count += 1;
        Ok(())
    }
}
