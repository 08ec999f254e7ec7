// A series: an option on the stock of its class.
use values::order::Kind;
use values::side::Price;

#[derive(Clone, Copy)]
pub struct Series {
    pub class: u8,
    pub kind: Kind,
    pub strike: Price,
}
