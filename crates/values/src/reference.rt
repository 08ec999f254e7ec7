// The reference price of a class's underlying stock, and the events that move it.
ghost use Rattle.std.specs.Prelude.{◌≡◌};
ghost use Rattle.values.specs.References.{after};

use crate::side::Price;

// What is known of the price of a class's underlying stock.
#[derive(Clone, Copy)]
pub enum Reference {
    // Nothing is known.
    Absent,
    // The close of the day before; the stock has not opened.
    Close(Price),
    // The last sale; the stock trades.
    Sale(Price),
    // The last sale before a halt; the stock does not trade.
    Halted(Price),
}

// What a tape reports of a class's underlying stock.
#[derive(Clone, Copy)]
pub enum Event {
    // The close of the day before.
    Close(Price),
    // The opening sale.
    Open(Price),
    // A later sale.
    Last(Price),
    Halt,
    Resume,
}

impl Reference {
    // What the event makes of the reference. A pairing that is not named changes nothing.
    pub fn take(&mut self, event: Event)
        ensures { self.new ≡ after event self.old }
    {
        match (*self, event) {
            (Reference::Absent | Reference::Close(_), Event::Close(price)) => *self =
                Reference::Close(price),
            (Reference::Absent | Reference::Close(_), Event::Open(price)) => *self =
                Reference::Sale(price),
            (Reference::Sale(_), Event::Last(price)) => *self = Reference::Sale(price),
            (Reference::Sale(price), Event::Halt) => *self = Reference::Halted(price),
            (Reference::Halted(price), Event::Resume) => *self = Reference::Sale(price),
            _ => {}
        }
    }
}
