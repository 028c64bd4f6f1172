// A rule as a rule list has it: plain numbers, which need not be those of a rule.
ghost use Rattle.std.specs.Prelude.{◌≡◌};
ghost use Rattle.sheets.specs.Fields.{row_of, parts_of};

use fields::numbers::PrefixLength;
use fields::perfield::PerField;
use fields::sides::Sides;

// What a rule asks of one field.
#[derive(Clone, Copy, PartialEq, Eq, Default, Debug)]
pub struct PatternRow {
    pub length: PrefixLength,
    pub number: u32,
}

#[derive(Clone, Copy, PartialEq, Eq, Default, Debug)]
pub struct RuleRow {
    pub number: u32,
    pub addresses: Sides<PatternRow>,
    pub ports: Sides<PatternRow>,
    pub protocol: PatternRow,
}

impl RuleRow {
    // The row of a number and five parts.
    pub fn new(number: u32, parts: PerField<PatternRow>) -> RuleRow
        ensures { result ≡ row_of number parts }
    {
        RuleRow {
            number,
            addresses: parts.addresses,
            ports: parts.ports,
            protocol: parts.protocol,
        }
    }
}

impl From<RuleRow> for PerField<PatternRow> {
    ghost from_gives = { λ row parts. parts ≡ parts_of row };

    fn from(row: RuleRow) -> PerField<PatternRow> {
        PerField {
            addresses: row.addresses,
            ports: row.ports,
            protocol: row.protocol,
        }
    }
}
