// A Trader Update: a series' new width, which two Trading Officials have to approve before it can be put in force. Each stage is
// a type of its own, and each step consumes the one before, so that an update is put in force at most once and never with one
// approval. A check comes before each step, and the step then cannot refuse.
ghost use Rattle.std.specs.Prelude.{◌≡◌, true};
ghost use Rattle.collars.specs.Updates.{lawful_width, official, different};

use values::side::Price;

mod steps;

pub use steps::{check_official, check_width};

// Not approved yet.
#[derive(Drop)]
pub struct Draft {
    series: u32,
    // None returns the series to the ladder.
    width: Option<Price>,
    ghost lawful: { lawful_width width ≡ true },
}

// Approved by one official.
#[derive(Drop)]
pub struct OnceApproved {
    series: u32,
    width: Option<Price>,
    first: u32,
    ghost lawful: { lawful_width width ≡ true },
    ghost known: { official first ≡ true },
}

// Approved by two different officials.
#[derive(Drop)]
pub struct Approved {
    series: u32,
    width: Option<Price>,
    first: u32,
    second: u32,
    ghost lawful: { lawful_width width ≡ true },
    ghost known: { official first ≡ true },
    ghost different: { different first second ≡ true },
}
