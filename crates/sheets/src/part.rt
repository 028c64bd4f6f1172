// The words of a rule after the first, which has its number.
ghost use Rattle.std.specs.Prelude.{◌≡◌};
ghost use Rattle.sheets.specs.Kinds.{number_of};
ghost use Rattle.sheets.specs.Words.{kind_due, side_due};

use crate::word::WordKind;

#[derive(Clone, Copy, PartialEq, Eq, Debug)]
pub enum Side {
    Source = 0,
    Destination = 1,
}

#[derive(Clone, Copy, PartialEq, Eq, Debug)]
pub enum Part {
    // The length of an address pattern, and the upper half of its number.
    Upper(Side),
    // The lower half of an address pattern's number.
    Lower(Side),
    Port(Side),
    Protocol,
}

impl Part {
    // The kind of its word.
    pub fn kind(self) -> WordKind
        ensures { number_of result ≡ kind_due self }
    {
        match self {
            Part::Upper(_) => WordKind::Upper,
            Part::Lower(_) => WordKind::Lower,
            Part::Port(_) => WordKind::Port,
            Part::Protocol => WordKind::Protocol,
        }
    }

    // Bit 28 of its word.
    pub fn side_bit(self) -> u32
        ensures { result ≡ side_due self }
    {
        match self {
            Part::Upper(side) | Part::Lower(side) | Part::Port(side) => side as u32,
            Part::Protocol => 0,
        }
    }
}
