// Rule sheets to bytes.
#![tactic(auto)]

ghost use Rattle.std.specs.Prelude.{◌≡◌, length, IfOk};
ghost use Rattle.fields.specs.Refusals.{refusal};
ghost use Rattle.sheets.specs.Format.{sheet_bytes};
ghost use Rattle.sheets.specs.Writing.{write_refusal, written};

use crate::checks::Checked;
use fields::refusal::Refusal;
use sheets::row::RuleRow;

mod bytes;
mod checks;
mod words;

// Writes the sheet of a rule list, and tells how many bytes it has. A refused write leaves the output as it was.
pub fn write_sheet(rules: &[RuleRow], out: &mut [u8]) -> Result<usize, Refusal>
    ensures answer { refusal result ≡ write_refusal rules.now (length out.old) }
    ensures count { IfOk result (λ n. n ≡ length (sheet_bytes rules.now)) }
    ensures out { out.new ≡ written (write_refusal rules.now (length out.old)) rules.now out.old }
{
    let checked = Checked::new(rules)?;
    let size = checked.size();
    if out.len() < size {
        return Err(Refusal::NoRoom);
    }
    checked.put(out);
    Ok(size)
}
