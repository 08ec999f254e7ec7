// A session: series are listed, then the market is open.
ghost use Rattle.std.specs.Prelude.{◌≡◌};
ghost use Rattle.std.specs.Option.{option_copied};
ghost use Rattle.values.specs.declared.refusal.Refusal.TheVariants.{Shape};
ghost use Rattle.market.specs.Markets.{SameRolls};
ghost use Rattle.guardlog.specs.Printing.{IsBroken};
ghost use Rattle.guardlog.specs.Sessions.{NothingListed};

use laws::opening::open_market;
use market::listing::Listing;
use market::market::Market;
use market::number::Class;
use market::tests::bad_price;
use screens::rules::{ORDER_RULES, OrderRules, QUOTE_RULES, QuoteRules};
use sources::tape::Tape;
use std::mem;
use trading::blotter::Blotter;
use values::call::{Call, Terms};
use values::refusal::Refusal;
use wire_format::line::Line;
use wire_read::read::read_line;

// The market of the rules: the tape and the rules' own screens.
type RulesMarket = Market<OrderRules, QuoteRules, Tape>;

// A taken line's number, if it was given one; or why it is refused.
pub type Answer = Result<Option<u32>, Refusal>;

#[derive(Drop)]
pub enum Session {
    // The series listed so far. The first line of another letter than S closes the listing and makes the market.
    Listing(Listing),
    Open(RulesMarket),
}

// S once the listing is closed: lists nothing.
fn late(terms: Terms) -> Answer {
    Class::try_from(terms.class)?;
    if bad_price(terms.strike) {
        return Err(Refusal::Price);
    }
    Err(Refusal::Late)
}

impl Session {
    pub fn new() -> Session
        ensures { NothingListed result }
    {
        Session::Listing(Listing::new())
    }

    // Answers a line, by its bytes with their newline; one that is broken whatever its bytes has none.
    pub fn answer_bytes(&mut self, line: Option<&[u8]>, blotter: &mut Blotter) -> Answer
        ensures broken { IsBroken (option_copied line.entry) → (result ≡ Err Shape) × (blotter.new ≡ blotter.old) }
        ensures rolls { SameRolls blotter.old blotter.new }
    {
        let line = read_line(line.ok_or(Refusal::Shape)?)?;
        self.answer_line(line, blotter)
    }

    fn answer_line(&mut self, line: Line, blotter: &mut Blotter) -> Answer
        ensures { SameRolls blotter.old blotter.new }
    {
        match line {
            Line::Series(terms) => self.list(terms),
            Line::Call(call) => self.call(call, blotter),
        }
    }

    // S: lists a series.
    fn list(&mut self, terms: Terms) -> Answer {
        match self {
            Session::Listing(listing) => listing.add(terms).map(|()| None),
            Session::Open(_) => late(terms),
        }
    }

    // Another letter: calls the market, which is made now if series were listed until now.
    fn call(&mut self, call: Call, blotter: &mut Blotter) -> Answer
        ensures { SameRolls blotter.old blotter.new }
    {
        match self {
            Session::Listing(listing) => {
                let listing = mem::replace(listing, Listing::new());
                let mut market = open_market(listing, ORDER_RULES, QUOTE_RULES, Tape::new());
                let answer = market.call(call, blotter);
                *self = Session::Open(market);
                answer
            }
            Session::Open(market) => market.call(call, blotter),
        }
    }
}
