// What is printed after a line: its trades, its withdrawals, then its answer; each a line of fields parted by tabs.
ghost use Rattle.std.specs.Prelude.{◌≡◌, ◌++◌, map, Some, OnOk};
ghost use Rattle.guardlog.specs.Printing.{printed, printed_lines, trade_text, withdrawal_text, answer_text};

use crate::session::Answer;
use book::row::{Trade, Withdrawal};
use std::io::Write;
use std::{fmt, io};

// A value as the fields of a line.
#[derive(Clone, Copy)]
pub struct Fields<T>(pub T);

impl fmt::Display for Fields<Trade> {
    ghost output = { λ line. Some (trade_text line.0) };

    fn fmt<W: fmt::Write>(&self, f: &mut fmt::Formatter<W>) -> fmt::Result {
        let Trade {
            series,
            price,
            size,
            taker,
            resting,
        } = self.0;
        write!(f, "t\t{series}\t{price}\t{size}\t{taker}\t{resting}")
    }
}

impl fmt::Display for Fields<Withdrawal> {
    ghost output = { λ line. Some (withdrawal_text line.0) };

    fn fmt<W: fmt::Write>(&self, f: &mut fmt::Formatter<W>) -> fmt::Result {
        let Withdrawal { number, left } = self.0;
        write!(f, "w\t{number}\t{left}")
    }
}

// The code is 0 where the line is taken.
impl fmt::Display for Fields<Answer> {
    ghost output = { λ line. Some (answer_text line.0) };

    fn fmt<W: fmt::Write>(&self, f: &mut fmt::Formatter<W>) -> fmt::Result {
        match self.0 {
            Ok(number) => write!(f, "a\t0\t{}\ttaken", number.unwrap_or(0)),
            Err(refusal) => write!(f, "a\t{}\t0\t{refusal}", refusal.number()),
        }
    }
}

// Prints the rows, a line each.
fn print_rows<T: Copy>(rows: &[T], out: &mut Vec<u8>) -> io::Result<()>
where
    Fields<T>: fmt::Display,
    ensures { (text : _) → ((row : _) → ⟦<Fields<T> as fmt::Display>⟧.output (record { 0 = row }) ≡ Some (text row)) → OnOk result (out.new.items ≡ out.old.items ++ printed_lines (map text rows.now)) }
{
    for row in rows {
        writeln!(out, "{}", Fields(*row))?;
    }
    Ok(())
}

// Prints what a line brought, and its answer.
#[tactic(auto, using(crate::proofs::Printed::all_printed))]
pub fn print_answer(
    trades: &[Trade],
    withdrawals: &[Withdrawal],
    answer: Answer,
    out: &mut Vec<u8>,
) -> io::Result<()>
    ensures { OnOk result (out.new.items ≡ out.old.items ++ printed trades.now withdrawals.now answer) }
{
    print_rows(trades, out)?;
    print_rows(withdrawals, out)?;
    writeln!(out, "{}", Fields(answer))
}
