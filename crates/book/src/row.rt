// What rests in a book, and what comes of trading and withdrawing it.
ghost use Rattle.std.specs.Prelude.{◌≡◌};
ghost use Rattle.values.specs.Sides.{no_more_aggressive};
ghost use Rattle.book.specs.Rows.{left_of, moved_to, once_moved, renewed, withdrawal_of};
ghost use Rattle.book.specs.Trades.{trade_with};

use values::side::{Price, Side};

// What a row is: an order at its limit, an order held by its collar, or a maker's quote.
#[derive(Clone, Copy)]
pub enum Standing {
    Plain,
    // The display price moves `collar` cents onward at the moment `due`.
    Held { collar: Price, due: u32 },
    Quote { maker: u8 },
}

// An order or a quote of which something is left.
#[derive(Clone, Copy)]
pub struct Row {
    pub number: u32,
    pub series: u8,
    pub side: Side,
    // The price at which it trades with a taker.
    pub display: Price,
    // The most aggressive price at which it may ever trade.
    pub limit: Price,
    // Contracts left.
    pub size: u32,
    pub standing: Standing,
}

// The moment at which the held order with a number moves: the sooner entry is the lesser, then the lower number.
#[derive(Clone, Copy, PartialEq, Eq, PartialOrd, Ord)]
pub struct Due {
    pub moment: u32,
    pub number: u32,
}

// An order or a quote that trades with the rows of the contra side, up to the price `reach`.
#[derive(Clone, Copy)]
pub struct Taker {
    pub number: u32,
    pub series: u8,
    pub side: Side,
    pub reach: Price,
}

// A row of the roll of trades: `taker` and `resting` are numbers.
#[derive(Clone, Copy)]
pub struct Trade {
    pub series: u8,
    pub price: Price,
    pub size: u32,
    pub taker: u32,
    pub resting: u32,
}

// A row of the roll of withdrawals: what was left of the order or quote.
#[derive(Clone, Copy)]
pub struct Withdrawal {
    pub number: u32,
    pub left: u32,
}

impl Row {
    // What is left of the row after it traded some contracts: nothing, or fewer contracts, and a held order due anew.
    pub fn after_trade(self, contracts: u32, due: u32) -> Option<Row>
        ensures { result ≡ left_of due contracts self }
    {
        (contracts < self.size).then(|| Row {
            size: self.size - contracts,
            standing: self.standing.renew(due),
            ..self
        })
    }

    // The row displayed at another price: a held order is due next at `due`, or becomes plain at its limit.
    pub(crate) fn moved_to(self, display: Price, due: u32) -> Row
        ensures { result ≡ moved_to display due self }
    {
        Row {
            display,
            standing: self.standing.move_on(display == self.limit, due),
            ..self
        }
    }

    // What the roll of withdrawals says of the row when it is withdrawn.
    pub fn withdrawal(&self) -> Withdrawal
        ensures { result ≡ withdrawal_of self.now }
    {
        Withdrawal {
            number: self.number,
            left: self.size,
        }
    }
}

impl Taker {
    // Whether a price of the contra side is within the reach.
    pub fn reaches(&self, price: Price) -> bool
        ensures { result ≡ no_more_aggressive self.now.side price self.now.reach }
    {
        self.side.no_more_aggressive(price, self.reach)
    }

    // A trade with a row, at the row's display price.
    pub fn trade_with(&self, row: Row, contracts: u32) -> Trade
        ensures { result ≡ trade_with self.now contracts row }
    {
        Trade {
            series: row.series,
            price: row.display,
            size: contracts,
            taker: self.number,
            resting: row.number,
        }
    }
}

impl Standing {
    // The standing after a trade: a held order is due anew.
    pub fn renew(self, due: u32) -> Standing
        ensures { result ≡ renewed due self }
    {
        match self {
            Standing::Held { collar, due: _ } => Standing::Held { collar, due },
            Standing::Plain | Standing::Quote { .. } => self,
        }
    }

    // The standing after the display price moved: at its limit a held order becomes plain, before it is due anew.
    pub fn move_on(self, at_limit: bool, due: u32) -> Standing
        ensures { result ≡ once_moved at_limit due self }
    {
        match self {
            Standing::Held { .. } if at_limit => Standing::Plain,
            _ => self.renew(due),
        }
    }
}
