// What is asked of the shutouts, and changed in them.
ghost use Rattle.std.specs.Prelude.{◌≡◌, ℕ, false};
ghost use Rattle.market.specs.States.{set_shut};
ghost use Rattle.market.specs.Shutouts.{shut_in};

use crate::number::{Class, Maker};
use crate::shutouts::Shutouts;

impl Shutouts {
    // Nobody is shut out.
    pub fn new() -> Shutouts
        ensures { shut_in result ≡ (λ k c. false) }
    {
        Shutouts {
            table: [[false; 16]; 16],
        }
    }

    // Whether the maker is shut out of the class.
    pub fn has(&self, maker: Maker, class: Class) -> bool
        ensures { result ≡ shut_in self.now maker.value class.value }
    {
        self.table[usize::from(maker.get())][usize::from(class.get())]
    }

    // Shuts the maker out of the class, or lets it in again.
    pub fn put(&mut self, maker: Maker, class: Class, shut: bool)
        ensures { shut_in self.new ≡ set_shut maker.value class.value shut (shut_in self.old) }
    {
        self.table[usize::from(maker.get())][usize::from(class.get())] = shut;
    }
}
