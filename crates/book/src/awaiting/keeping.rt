// What is asked of the due list, and done to it.
ghost use Rattle.std.specs.Prelude.{◌≡◌, ◌<◌, ◌≤◌, true, [], length};
ghost use Rattle.std.specs.List.{position};
ghost use Rattle.book.specs.Lists.{every, head, lacking};
ghost use Rattle.book.specs.Dues.{distinct, due_at, entered, listed, owed, unlisted};
ghost use Rattle.book.specs.Listings.{waiting};

use super::Dues;
use crate::places::{close_place, open_place};
use crate::resting::PLACES;
use crate::row::{Due, Standing};

impl Dues {
    pub fn new() -> Dues
        ensures { waiting result ≡ [] }
    {
        // what stands in a slot that no entry takes
        let none = Due {
            moment: 0,
            number: 0,
        };
        Dues {
            slots: [none; PLACES],
            count: 0,
        }
    }

    // The entries, the soonest first.
    fn entries(&self) -> &[Due]
        ensures { result.now ≡ waiting self.now }
    {
        &self.slots[..self.count]
    }

    // The place of the entry of the order with a number.
    fn place_of(&self, number: u32) -> Option<usize>
        ensures { result ≡ position (owed number) (waiting self.now) }
    {
        self.entries()
            .iter()
            .position(|entry| entry.number == number)
    }

    // The entry that is due first.
    pub fn first(&self) -> Option<Due>
        ensures { result ≡ head (waiting self.now) }
    {
        self.entries().first().copied()
    }

    // Puts an entry at its turn.
    pub fn enter(&mut self, due: Due)
        requires room { length (waiting self.old) < 256 }
        requires unused { every (distinct due) (waiting self.old) ≡ true }
        ensures { waiting self.new ≡ entered due (waiting self.old) }
    {
        let at = self.entries().partition_point(|entry| *entry < due);
        open_place(&mut self.slots, at..self.count, due);
        self.count += 1;
    }

    // Takes out the entry of the order with a number.
    pub fn remove(&mut self, number: u32)
        ensures { waiting self.new ≡ lacking (owed number) (waiting self.old) }
    {
        if let Some(at) = self.place_of(number) {
            close_place(&mut self.slots, at..self.count);
            self.count -= 1;
        }
    }

    // Gives a held order the entry that is its own.
    pub fn list(&mut self, number: u32, standing: Standing)
        requires room { length (listed standing number (waiting self.old)) ≤ 256 }
        requires unused { every (distinct (due_at 0 number)) (waiting self.old) ≡ true }
        ensures { waiting self.new ≡ listed standing number (waiting self.old) }
    {
        if let Standing::Held { due, .. } = standing {
            self.enter(Due {
                moment: due,
                number,
            });
        }
    }

    // Takes out the entry of a held order.
    pub fn unlist(&mut self, number: u32, standing: Standing)
        ensures { waiting self.new ≡ unlisted standing number (waiting self.old) }
    {
        if let Standing::Held { .. } = standing {
            self.remove(number);
        }
    }
}
