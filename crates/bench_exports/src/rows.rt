// What C passes.
ghost use Rattle.std.specs.Prelude.{◌≡◌};
ghost use Rattle.bench_exports.specs.Rows.{key_of};

use fields::numbers::{Label, PrefixLength};
use fields::perfield::PerField;
use fields::sides::Sides;
use keytables::key::Key;

// The length and the number of a pattern.
#[repr(C)]
#[derive(Clone, Copy)]
pub struct PrefixRow {
    pub length: u8,
    pub number: u32,
}

impl PrefixRow {
    pub(crate) fn length(self) -> PrefixLength
        ensures { result.bits ≡ self.length }
    {
        PrefixLength { bits: self.length }
    }
}

// A subset, and the places of five labels.
#[repr(C)]
#[derive(Clone, Copy)]
pub struct KeyRow {
    pub subset: u8,
    pub source: u16,
    pub destination: u16,
    pub source_port: u16,
    pub destination_port: u16,
    pub protocol: u16,
}

impl From<KeyRow> for Key {
    ghost from_gives = { λ row key. key ≡ key_of row };

    fn from(row: KeyRow) -> Key {
        let addresses = Sides {
            source: Label { place: row.source },
            destination: Label {
                place: row.destination,
            },
        };
        let ports = Sides {
            source: Label {
                place: row.source_port,
            },
            destination: Label {
                place: row.destination_port,
            },
        };
        Key {
            subset: row.subset,
            labels: PerField {
                addresses,
                ports,
                protocol: Label {
                    place: row.protocol,
                },
            },
        }
    }
}
