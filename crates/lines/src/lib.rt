// Output lines.
#![tactic(auto)]

ghost use Rattle.std.specs.Prelude.{◌≡◌, length, IfOk};
ghost use Rattle.fields.specs.Refusals.{code, refusal as refusal_of};
ghost use Rattle.lines.specs.Lines.{header_line, refusal_line, write_refusal, written};

use cursor::Cursor;
use fields::refusal::Refusal;
use line::{HeaderLine, Line};

mod cursor;
mod line;

// Writes a line, and tells how many bytes it has. A refused write leaves the output as it was.
fn write_line<L: Line>(line: &L, out: &mut [u8]) -> Result<usize, Refusal>
    ensures answer { refusal_of result ≡ write_refusal (L.text line.now) (length out.old) }
    ensures count { IfOk result (λ n. n ≡ length (L.text line.now)) }
    ensures out { out.new ≡ written (write_refusal (L.text line.now) (length out.old)) (L.text line.now) out.old }
{
    // Where there is no room at all, it is only counted.
    let mut counter = Cursor::new(&mut []);
    line.print(&mut counter);
    let count = counter.count;
    if out.len() < count {
        return Err(Refusal::NoRoom);
    }
    let mut cursor = Cursor::new(out);
    line.print(&mut cursor);
    Ok(count)
}

// Writes the line of a header, and tells how many bytes it has. A refused write leaves the output as it was.
pub fn write_header_line(
    index: usize,
    rules: &[u8],
    hits: usize,
    out: &mut [u8],
) -> Result<usize, Refusal>
    ensures answer { refusal_of result ≡ write_refusal (header_line index rules.now hits) (length out.old) }
    ensures count { IfOk result (λ n. n ≡ length (header_line index rules.now hits)) }
    ensures out { out.new ≡ written (write_refusal (header_line index rules.now hits) (length out.old)) (header_line index rules.now hits) out.old }
{
    // A space stands before each rule, so a list that is longer than the output is not gone through.
    if out.len() < rules.len() {
        return Err(Refusal::NoRoom);
    }
    write_line(&HeaderLine { index, rules, hits }, out)
}

// Writes the line of a refusal, and tells how many bytes it has. A refused write leaves the output as it was.
pub fn write_refusal_line(refusal: Refusal, out: &mut [u8]) -> Result<usize, Refusal>
    ensures answer { refusal_of result ≡ write_refusal (refusal_line (code refusal)) (length out.old) }
    ensures count { IfOk result (λ n. n ≡ length (refusal_line (code refusal))) }
    ensures out { out.new ≡ written (write_refusal (refusal_line (code refusal)) (length out.old)) (refusal_line (code refusal)) out.old }
{
    write_line(&refusal, out)
}
