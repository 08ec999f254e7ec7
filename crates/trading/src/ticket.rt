// An order or quote as it is admitted.
use values::side::{Price, Side};

#[derive(Clone, Copy)]
pub struct Ticket {
    pub number: u32,
    pub series: u8,
    pub side: Side,
    // The most aggressive price at which it may trade.
    pub limit: Price,
    pub size: u32,
    // Whose quote it is; none for an order.
    pub maker: Option<u8>,
}
