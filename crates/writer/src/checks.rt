// Whether rows of plain numbers are the rules of a sheet.
ghost use Rattle.std.specs.Prelude.{◌≡◌, None, IfOk};
ghost use Rattle.fields.specs.Prefixes.{make};
ghost use Rattle.fields.specs.Refusals.{refusal};
ghost use Rattle.sheets.specs.Rows.{row_refusal, rows_refusal};

use fields::checked::first_of;
use fields::perfield::PerField;
use fields::prefix::Prefix;
use fields::refusal::Refusal;
use fields::sides::Sides;
use sheets::row::{PatternRow, RuleRow};

// Whether a row is a pattern of the kind of width W and shortest length S.
fn check<const W: u8, const S: u8>(row: PatternRow) -> Result<(), Refusal>
    ensures { refusal result ≡ refusal (make W S row.length.bits row.number) }
{
    Prefix::<W, S>::new(row.length, row.number)?;
    Ok(())
}

// Whether a row is a rule whose number is `least` or above.
#[tactic(auto, using(crate::proofs::Rows::row_checked))]
fn check_rule(rule: RuleRow, least: u32) -> Result<(), Refusal>
    ensures { refusal result ≡ row_refusal least rule }
{
    if rule.number > 255 {
        return Err(Refusal::RuleNumber);
    }
    if rule.number < least {
        return Err(Refusal::RuleOrder);
    }
    first_of(PerField {
        addresses: Sides {
            source: check::<32, 1>(rule.addresses.source),
            destination: check::<32, 1>(rule.addresses.destination),
        },
        ports: Sides {
            source: check::<16, 1>(rule.ports.source),
            destination: check::<16, 1>(rule.ports.destination),
        },
        protocol: check::<8, 8>(rule.protocol),
    })
}

// Rows that are the rules of a sheet: they passed every test.
#[derive(Clone, Copy)]
pub(crate) struct Checked<'a> {
    pub(crate) rules: &'a [RuleRow],
    ghost in_order: { rows_refusal 0 rules.now ≡ None },
}

impl<'a> Checked<'a> {
    // The rows, where they are rules in ascending order of their numbers.
    pub(crate) fn new(rules: &'a [RuleRow]) -> Result<Checked<'a>, Refusal>
        ensures answer { refusal result ≡ rows_refusal 0 rules.now }
        ensures same { IfOk result (λ c. c.rules.now ≡ rules.now) }
    {
        let mut least = 0;
        for rule in rules {
            check_rule(*rule, least)?;
            least = rule.number + 1;
        }
        Ok(Checked { rules })
    }
}
