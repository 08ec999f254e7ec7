// The laws over whole runs of a market. Each stands on the contract of a function of its name, so that nothing above this crate is
// proved unless the law is.
#![tactic(auto)]

ghost use Rattle.laws.specs.Balances.{EveryRunAddsUp};
ghost use Rattle.laws.specs.Capacity.{EveryRunRoomy};
ghost use Rattle.laws.specs.Deals.{EveryRunDealsFairly};
ghost use Rattle.laws.specs.Moments.{EveryRunTakesItsTime};
ghost use Rattle.laws.specs.Moves.{EveryRunMovesLawfully};
ghost use Rattle.laws.specs.Protection.{EveryRunProtected};
ghost use Rattle.laws.specs.Refusals.{EveryRunRefusesIdly, EveryRefusalLeavesNoTrace};
ghost use Rattle.laws.specs.Causes.{EveryRunRefusesForCause};
ghost use Rattle.laws.specs.Rolls.{EveryRollTrue, EveryRunKeepsTrueRows};
ghost use Rattle.laws.specs.Whole.{EveryRunLawful};
ghost use Rattle.laws.specs.Widths.{EveryRunApprovesWidths};

pub mod opening;

// All of the laws below that speak of what is seen of a market, in one statement.
pub fn every_run_lawful()
    ensures { EveryRunLawful }
{}

// Trades pass their screens and stay within the collar, books never cross, and no quote rests of a maker that is shut out.
pub fn every_run_protected()
    ensures { EveryRunProtected }
{}

// A trade is a deal between two parties of opposite sides of a series, at the display price of the one that rests.
pub fn every_run_deals_fairly()
    ensures { EveryRunDealsFairly }
{}

// A display price is given once, by the rule and by the call that admits the order or quote; T alone moves it, by exactly the
// collar or to the limit.
pub fn every_run_moves_lawfully()
    ensures { EveryRunMovesLawfully }
{}

// What moves has fallen due, at moments that lie at least 1,000 ms apart: at most once in one call, and once a second. No order
// waits longer.
pub fn every_run_takes_its_time()
    ensures { EveryRunTakesItsTime }
{}

// A width changes only by an update that two different officials approved.
pub fn every_run_approves_widths()
    ensures { EveryRunApprovesWidths }
{}

// A limit order is refused for the published causes alone.
pub fn every_run_refuses_for_cause()
    ensures { EveryRunRefusesForCause }
{}

// A refused call gives no trade and uses no number.
pub fn every_run_refuses_idly()
    ensures { EveryRunRefusesIdly }
{}

// What comes after a refused call is answered as if it had not been made.
pub fn every_refusal_leaves_no_trace()
    ensures { EveryRefusalLeavesNoTrace }
{}

// For each number, what was admitted is what was traded, what was withdrawn and what rests.
pub fn every_run_adds_up()
    ensures { EveryRunAddsUp }
{}

// The rows that the calls add to the rolls are the journal's trades and withdrawals, in order.
pub fn every_roll_true()
    ensures { EveryRollTrue }
{}

// The rows of the book are what rests by the history, each at the journal's newest display price.
pub fn every_run_keeps_true_rows()
    ensures { EveryRunKeepsTrueRows }
{}

// The book has at most 256 rows, and a call adds at most 256 trades and 128 withdrawals.
pub fn every_run_roomy()
    ensures { EveryRunRoomy }
{}
