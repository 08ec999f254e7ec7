// A desk: a session, and what each line of it brings.
ghost use Rattle.guardlog.specs.Printing.{MayPrint};
ghost use Rattle.guardlog.specs.Sessions.{NothingListed};

use crate::print::print_answer;
use crate::session::Session;
use book::row::{Trade, Withdrawal};
use rolls::roll::Roll;
use std::io;
use trading::blotter::Blotter;
use wire::feed::Answerer;

// A session, with rows for all that a line may bring: as many as a call may ask for, kept from line to line.
#[derive(Drop)]
pub struct Desk {
    session: Session,
    traded: [Trade; 256],
    withdrawn: [Withdrawal; 128],
}

impl Desk {
    pub fn new() -> Desk
        ensures { NothingListed result.session }
    {
        // what stands in a row that no trade has filled yet
        let no_trade = Trade {
            series: 0,
            price: 0,
            size: 0,
            taker: 0,
            resting: 0,
        };
        Desk {
            session: Session::new(),
            traded: [no_trade; 256],
            withdrawn: [Withdrawal { number: 0, left: 0 }; 128],
        }
    }
}

impl Answerer for Desk {
    ghost answers = { λ _ item _ text. MayPrint item text };

    fn answer(&mut self, line: Option<&[u8]>, out: &mut Vec<u8>) -> io::Result<()> {
        let mut trades = Roll::new(&mut self.traded);
        let mut withdrawals = Roll::new(&mut self.withdrawn);
        let mut blotter = Blotter {
            trades: &mut trades,
            withdrawals: &mut withdrawals,
        };
        let answer = self.session.answer_bytes(line, &mut blotter);
        print_answer(trades.rows(), withdrawals.rows(), answer, out)
    }
}
