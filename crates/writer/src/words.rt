// Rules into words.
ghost use Rattle.std.specs.Prelude.{◌≡◌, ◌+◌, ◌*◌, ◌/◌, ◌%◌, ◌^◌, ◌<◌, ◌≤◌};
ghost use Rattle.sheets.specs.Format.{rule_words};
ghost use Rattle.sheets.specs.Kinds.{number_of};
ghost use Rattle.sheets.specs.Words.{word};
ghost use Rattle.writer.specs.Fitting.{Fitting};

use fields::numbers::PrefixLength;
use sheets::part::{Part, Side};
use sheets::row::{PatternRow, RuleRow};
use sheets::word::WordKind;

// The word of a kind with its bits 28-0.
fn word_of(kind: WordKind, rest: u32) -> u32
    requires { rest < 2 ^ 29 }
    ensures { result ≡ number_of kind * 2 ^ 29 + rest }
{
    (kind.number() << 29) + rest
}

// The word of a part with a length and a number.
fn part_word(part: Part, row: PatternRow) -> u32
    requires short { row.length.bits < 64 }
    requires low { row.number < 2 ^ 16 }
    ensures { result ≡ word part row.length.bits row.number }
{
    let size = u32::from(row.length.bits);
    let rest = (part.side_bit() << 28) + (size << 22) + row.number;
    word_of(part.kind(), rest)
}

// The word of an address pattern's length and the upper half of its number.
fn upper_word(side: Side, row: PatternRow) -> u32
    requires { row.length.bits ≤ 32 }
    ensures { result ≡ word (Part.Upper side) row.length.bits (row.number / 2 ^ 16) }
{
    let number = row.number >> 16;
    part_word(Part::Upper(side), PatternRow { number, ..row })
}

// The word of the lower half of an address pattern's number.
fn lower_word(side: Side, row: PatternRow) -> u32
    ensures { result ≡ word (Part.Lower side) 0 (row.number % 2 ^ 16) }
{
    let length = PrefixLength::default();
    let number = row.number % 65536;
    part_word(Part::Lower(side), PatternRow { length, number })
}

// The eight words of a rule.
pub(crate) fn words_of_rule(rule: RuleRow) -> [u32; 8]
    requires { Fitting rule }
    ensures { result ≡ rule_words rule }
{
    let RuleRow {
        number,
        addresses,
        ports,
        protocol,
    } = rule;
    [
        word_of(WordKind::Rule, number),
        upper_word(Side::Source, addresses.source),
        lower_word(Side::Source, addresses.source),
        upper_word(Side::Destination, addresses.destination),
        lower_word(Side::Destination, addresses.destination),
        part_word(Part::Port(Side::Source), ports.source),
        part_word(Part::Port(Side::Destination), ports.destination),
        part_word(Part::Protocol, protocol),
    ]
}

// The word that ends a sheet of so many rules.
pub(crate) fn end_word(count: u32) -> u32
    requires { count < 2 ^ 29 }
    ensures { result ≡ 6 * 2 ^ 29 + count }
{
    word_of(WordKind::End, count)
}
