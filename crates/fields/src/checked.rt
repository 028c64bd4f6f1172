// The refusal of a row, from those of its five parts.
ghost use Rattle.std.specs.Prelude.{◌≡◌};
ghost use Rattle.fields.specs.Checked.{first_refusal};
ghost use Rattle.fields.specs.Places.{at};
ghost use Rattle.fields.specs.Refusals.{refusal};

use crate::perfield::PerField;
use crate::refusal::Refusal;

pub type Check = Result<(), Refusal>;

// A length that a kind lacks, at any place, is told before a bit beyond a length, at any.
pub fn first_of(checks: PerField<Check>) -> Check
    ensures { refusal result ≡ first_refusal (λ i. refusal (at checks i)) }
{
    let checks = checks.in_order();
    if checks
        .iter()
        .any(|check| matches!(check, Err(Refusal::Length)))
    {
        return Err(Refusal::Length);
    }
    if checks
        .iter()
        .any(|check| matches!(check, Err(Refusal::BitBeyond)))
    {
        return Err(Refusal::BitBeyond);
    }
    Ok(())
}
