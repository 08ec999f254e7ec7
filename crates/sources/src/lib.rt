// Sources of reference prices: one for each of the sixteen classes.
#![tactic(auto)]

ghost use Rattle.std.specs.Prelude.{◌≡◌, Bool, List, length};
ghost use Rattle.values.specs.declared.reference.Reference.{Reference};
ghost use Rattle.sources.specs.Sources.{reference_of, told};

use values::reference::{Event, Reference};

pub mod closing_sheet;
pub mod tape;

// Classes are numbered from 0.
pub const CLASSES: usize = 16;

// Where the reference prices come from.
pub trait PriceSource {
    // the reference of each class, by number
    ghost references: { Self → List Reference };

    // whether the source takes events; it is live or not for good
    ghost live: { Self → Bool };

    fn is_live(&self) -> bool
        ensures { result ≡ live self.now };

    // The reference of a class; absent where there is no such class.
    fn reference(&self, class: usize) -> Reference
        ensures { result ≡ reference_of (references self.now) class };

    // Brings a class's event. A live source takes it, and only that class's reference changes; any other stays as it is.
    fn tell(&mut self, class: usize, event: Event)
        ensures stays { live self.new ≡ live self.old }
        ensures moves { references self.new ≡ told (live self.old) (references self.old) class event };

    ghost sixteen: { (x : Self) → length (references x) ≡ 16 };
}
