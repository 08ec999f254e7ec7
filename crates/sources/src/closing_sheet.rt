// The closing sheet: a fixed source with the close of each class that has one.
ghost use Rattle.std.specs.Prelude.{◌≡◌, false, map, length};
ghost use Rattle.std.proofs.Common.{◌∙◌};
ghost use Rattle.std.proofs.lemmas.List.{length-map};
ghost use Rattle.sources.specs.Sources.{close_of};

use crate::{CLASSES, PriceSource};
use values::reference::{Event, Reference};
use values::side::Price;

#[derive(Clone, Copy)]
pub struct ClosingSheet {
    closes: [Option<Price>; CLASSES],
    ghost full: { length closes ≡ 16 },
}

impl ClosingSheet {
    pub fn new(closes: [Option<Price>; CLASSES]) -> ClosingSheet
        ensures { result.closes ≡ closes }
    {
        ClosingSheet { closes }
    }
}

// A close, or nothing known where it is blank: named, since a `From` would hide which reference it makes.
fn close_of(close: Option<Price>) -> Reference
    ensures { result ≡ close_of close }
{
    close.map_or(Reference::Absent, Reference::Close)
}

impl PriceSource for ClosingSheet {
    ghost references = { λ t. map close_of t.closes };

    ghost live = { λ _. false };

    ghost sixteen = { λ x. length-map x.closes close_of ∙ x.full };

    fn is_live(&self) -> bool {
        false
    }

    fn reference(&self, class: usize) -> Reference {
        close_of(self.closes.get(class).copied().flatten())
    }

    fn tell(&mut self, _class: usize, _event: Event) {}
}
