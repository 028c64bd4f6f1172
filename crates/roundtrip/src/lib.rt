// Sheets there and back again.
#![tactic(auto)]

ghost use Rattle.std.specs.Prelude.{◌≡◌, length, IfOk};
ghost use Rattle.fields.specs.Refusals.{refusal};
ghost use Rattle.sheets.specs.Reading.{sheet_read};
ghost use Rattle.sheets.specs.Rows.{or_else};
ghost use Rattle.sheets.specs.Writing.{write_refusal};
ghost use Rattle.roundtrip.specs.Trips.{Reread, Rewritten, room_refusal, rewrite_refusal};

use fields::refusal::Refusal;
use reader::sheet::read_sheet;
use sheetlaws::{read_is_written, written_is_read};
use sheets::row::RuleRow;
use writer::write_sheet;

// Writes a rule list as a sheet and reads the sheet into another list: the same rules.
#[tactic(auto, using(crate::proofs::Ways::reads_back))]
pub fn reread(rules: &[RuleRow], bytes: &mut [u8], list: &mut [RuleRow]) -> Result<usize, Refusal>
    ensures answer { refusal result ≡ or_else (write_refusal rules.now (length bytes.old)) (room_refusal (length rules.now) (length list.old)) }
    ensures list { IfOk result (λ n. Reread rules.now list.old list.new n) }
{
    let size = write_sheet(rules, bytes)?;
    if list.len() < rules.len() {
        return Err(Refusal::NoRoom);
    }
    written_is_read();
    let count = read_sheet(&bytes[0..size], list)?;
    Ok(count)
}

// Reads a sheet into a rule list and writes the rules as another sheet: the same bytes.
#[tactic(auto, using(sheets::proofs::Verdicts::faulted, crate::proofs::Ways::again, crate::proofs::Ways::same_bytes))]
pub fn rewrite(bytes: &[u8], list: &mut [RuleRow], out: &mut [u8]) -> Result<usize, Refusal>
    ensures answer { refusal result ≡ rewrite_refusal (sheet_read bytes.now (length list.old)) (length bytes.now) (length out.old) }
    ensures out { IfOk result (λ n. Rewritten bytes.now out.old out.new n) }
{
    let count = read_sheet(bytes, list)?;
    read_is_written();
    write_sheet(&list[0..count], out)
}
