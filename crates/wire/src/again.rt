// Round trips: a line read and written again, and one written and read again.
ghost use Rattle.std.specs.Prelude.{◌≡◌, ◌≤◌, take, IfOk, Some};
ghost use Rattle.wire_format.specs.Format.{written};
ghost use Rattle.wire_format.specs.RoundTrips.{Rewrites, Unambiguous, ReadsBack, Rereads};

use values::refusal::Refusal;
use wire_format::line::{LONGEST, Line};
use wire_read::read::read_line;
use wire_write::write::write_line;

// Reads the bytes of one whole line, and writes the line at the front of `out`: the same bytes again, which say the same.
pub fn rewrite_line(bytes: &[u8], out: &mut [u8]) -> Result<usize, Refusal>
    ensures same { Rewrites bytes.now out.old result out.new }
    ensures bytes { IfOk result (λ size. (take size out.new ≡ bytes.now) × (size ≤ 80)) }
    ensures again { IfOk result (λ size. (l : Line) → written l ≡ Some bytes.now → ReadsBack l (take size out.new)) }
    ensures once { Unambiguous bytes.now }
{
    let line = read_line(bytes)?;
    write_line(line, out)
}

// Writes the line, and reads what was written: the same line again.
pub fn reread_line(line: Line) -> Result<Line, Refusal>
    ensures { Rereads line result }
{
    let mut bytes = [0u8; LONGEST];
    let size = write_line(line, &mut bytes)?;
    let (text, _) = bytes.split_at(size);
    read_line(text)
}
