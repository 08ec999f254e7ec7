// A roll: a stretch of the caller's rows and a count of those that are filled, never more than there are.
ghost use Rattle.rolls.specs.Slots.{Within};

use crate::slots::Slots;

pub mod filling;

#[derive(Drop)]
pub struct Roll<'a, T: Copy> {
    slots: Slots<'a, T>,
    ghost within: { Within slots },
}
