// Rules and faults as people read them.
#![tactic(auto)]

ghost use Rattle.std.specs.Prelude.{◌≡◌, Some};
ghost use Rattle.std.specs.Net.Addr.{IsIpv4OfBits};
ghost use Rattle.fields.specs.Refusals.{code};
ghost use Rattle.texts.specs.declared.notation.Notation.TheVariants.{Dotted, Plain};
ghost use Rattle.texts.specs.Text.{address_text, pattern_text, rule_text, layer_text, fault_text};

use notation::Notation;
use sheets::fault::{Fault, Layer};
use sheets::row::{PatternRow, RuleRow};
use std::fmt;
use std::net::Ipv4Addr;

pub mod lines;
pub mod notation;

// A file of more bytes is not looked into.
pub const MOST_BYTES: usize = 65536;

// A number as an address.
#[derive(Clone, Copy)]
pub struct AddressText(pub u32);

// The address that prints itself, of a number, whose highest byte is the first.
fn address_of(number: u32) -> Ipv4Addr
    ensures { IsIpv4OfBits result number }
{
    Ipv4Addr::from(number)
}

impl fmt::Display for AddressText {
    ghost output = { λ a. Some (address_text a.0) };

    fn fmt<W: fmt::Write>(&self, f: &mut fmt::Formatter<W>) -> fmt::Result {
        let address = address_of(self.0);
        write!(f, "{address}")
    }
}

// What a rule asks of one field; a star where it asks nothing.
#[derive(Clone, Copy)]
pub struct PatternText {
    pub row: PatternRow,
    pub notation: Notation,
}

impl PatternText {
    // An address pattern, as in 10.0.0.0/8.
    fn dotted(row: PatternRow) -> PatternText
        ensures { result ≡ record { row = row; notation = Dotted } }
    {
        PatternText {
            row,
            notation: Notation::Dotted,
        }
    }

    // A port's or a protocol's pattern, as in 5004/16.
    fn plain(row: PatternRow) -> PatternText
        ensures { result ≡ record { row = row; notation = Plain } }
    {
        PatternText {
            row,
            notation: Notation::Plain,
        }
    }
}

impl fmt::Display for PatternText {
    ghost output = { λ p. Some (pattern_text p.notation p.row) };

    fn fmt<W: fmt::Write>(&self, f: &mut fmt::Formatter<W>) -> fmt::Result {
        let bits = self.row.length.bits;
        let number = self.row.number;
        if bits == 0 {
            return f.write_str("*");
        }
        match self.notation {
            Notation::Dotted => {
                let address = AddressText(number);
                write!(f, "{address}/{bits}")
            }
            Notation::Plain => write!(f, "{number}/{bits}"),
        }
    }
}

// One rule.
#[derive(Clone, Copy)]
pub struct RuleText(pub RuleRow);

impl fmt::Display for RuleText {
    ghost output = { λ t. Some (rule_text t.0) };

    fn fmt<W: fmt::Write>(&self, f: &mut fmt::Formatter<W>) -> fmt::Result {
        let rule = self.0;
        let number = rule.number;
        let source = PatternText::dotted(rule.addresses.source);
        let destination = PatternText::dotted(rule.addresses.destination);
        let source_port = PatternText::plain(rule.ports.source);
        let destination_port = PatternText::plain(rule.ports.destination);
        let protocol = PatternText::plain(rule.protocol);
        write!(
            f,
            "{number}: {source} {destination} {source_port} {destination_port} {protocol}"
        )
    }
}

#[derive(Clone, Copy)]
pub struct LayerText(pub Layer);

impl fmt::Display for LayerText {
    ghost output = { λ t. Some (layer_text t.0) };

    fn fmt<W: fmt::Write>(&self, f: &mut fmt::Formatter<W>) -> fmt::Result {
        match self.0 {
            Layer::Word => f.write_str("word"),
            Layer::Rule => f.write_str("rule"),
            Layer::Sheet => f.write_str("sheet"),
        }
    }
}

// Why a sheet is refused, and where.
#[derive(Clone, Copy)]
pub struct FaultText(pub Fault);

impl fmt::Display for FaultText {
    ghost output = { λ t. Some (fault_text (code t.0.refusal) t.0.place t.0.layer) };

    fn fmt<W: fmt::Write>(&self, f: &mut fmt::Formatter<W>) -> fmt::Result {
        let refusal = self.0.refusal;
        let place = self.0.place;
        let layer = LayerText(self.0.layer);
        write!(f, "{refusal} at word {place}, layer {layer}")
    }
}
