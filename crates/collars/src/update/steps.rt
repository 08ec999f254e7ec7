// The checks and the steps from a draft to an approved update.
ghost use Rattle.std.specs.Prelude.{◌≡◌, true, Ok};
ghost use Rattle.collars.specs.Updates.{width_check, official_check, second_check};

use crate::update::{Approved, Draft, OnceApproved};
use values::refusal::Refusal;
use values::side::Price;

// Whether an update may give this width: none, for the ladder, or 1 to 1,000 cents.
pub fn check_width(width: Option<Price>) -> Result<(), Refusal>
    ensures { result ≡ width_check width }
{
    match width {
        Some(width) if width < 1 || width > 1_000 => Err(Refusal::Price),
        _ => Ok(()),
    }
}

// Whether there is such an official: 0 to 15. A check of a plain number, since the stages of an update are of plain numbers.
pub fn check_official(official: u32) -> Result<(), Refusal>
    ensures { result ≡ official_check official }
{
    if official > 15 {
        Err(Refusal::Name)
    } else {
        Ok(())
    }
}

impl Draft {
    // Drafts an update of a series' width, which `check_width` has passed.
    pub fn new(series: u32, width: Option<Price>) -> Draft
        requires { width_check width ≡ Ok tt }
        ensures { (result.series ≡ series) × (result.width ≡ width) }
    {
        Draft { series, width }
    }

    // The first approval, by an official whom `check_official` has passed.
    pub fn approve(self, official: u32) -> OnceApproved
        requires { official_check official ≡ Ok tt }
        ensures { (result.series ≡ self.series) × (result.width ≡ self.width) × (result.first ≡ official) }
    {
        let Draft { series, width } = self;
        OnceApproved {
            series,
            width,
            first: official,
        }
    }
}

impl OnceApproved {
    // Whether the official may give the second approval: one of the officials, and another than gave the first.
    pub fn check_second(&self, official: u32) -> Result<(), Refusal>
        ensures { result ≡ second_check self.now.first official }
    {
        check_official(official)?;
        if official == self.first {
            Err(Refusal::Same)
        } else {
            Ok(())
        }
    }

    // The second approval, by an official whom `check_second` has passed.
    pub fn approve(self, official: u32) -> Approved
        requires { second_check self.first official ≡ Ok tt }
        ensures { (result.series ≡ self.series) × (result.width ≡ self.width) × (result.first ≡ self.first) × (result.second ≡ official) }
    {
        let OnceApproved {
            series,
            width,
            first,
        } = self;
        Approved {
            series,
            width,
            first,
            second: official,
        }
    }
}

impl Approved {
    pub fn series(&self) -> u32
        ensures { result ≡ self.now.series }
    {
        self.series
    }

    pub fn width(&self) -> Option<Price>
        ensures { result ≡ self.now.width }
    {
        self.width
    }
}
