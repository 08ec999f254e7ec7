// The two rolls that a call fills.
use book::row::{Trade, Withdrawal};
use rolls::roll::Roll;

// A blotter: the roll of trades and the roll of withdrawals that a caller lends to a call. Each loan and each roll has a lifetime of its
// own, so that any two rolls can be lent together.
#[derive(Drop)]
pub struct Blotter<'a, 'b, 'c, 'd> {
    pub trades: &'a mut Roll<'b, Trade>,
    pub withdrawals: &'c mut Roll<'d, Withdrawal>,
}
