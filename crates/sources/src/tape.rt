// The tape: a live source, driven by the events that it is told.
ghost use Rattle.std.specs.Prelude.{◌≡◌, true, length, replicate};
ghost use Rattle.values.specs.declared.reference.Reference.TheVariants.{Absent};

use crate::{CLASSES, PriceSource};
use values::reference::{Event, Reference};

#[derive(Clone, Copy)]
pub struct Tape {
    current: [Reference; CLASSES],
    ghost full: { length current ≡ 16 },
}

impl Tape {
    // Every class is absent at first.
    pub fn new() -> Tape
        ensures { result.current ≡ replicate 16 Absent }
    {
        Tape {
            current: [Reference::Absent; CLASSES],
        }
    }
}

impl PriceSource for Tape {
    ghost references = { λ t. t.current };

    ghost live = { λ _. true };

    ghost sixteen = { λ t. t.full };

    fn is_live(&self) -> bool {
        true
    }

    fn reference(&self, class: usize) -> Reference {
        self.current
            .get(class)
            .copied()
            .unwrap_or(Reference::Absent)
    }

    fn tell(&mut self, class: usize, event: Event) {
        // by its index: what `get_mut` lends comes back in no proof here
        if class < CLASSES {
            self.current[class].take(event);
        }
    }
}
