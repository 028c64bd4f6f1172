// Why a call is refused.
ghost use Rattle.std.specs.Prelude.{◌≡◌, Some};
ghost use Rattle.fields.specs.Refusals.{code, text};
ghost use Rattle.fields.specs.declared.refusal.Refusal.TheVariants.{Memory};

use std::alloc::AllocError;
use std::fmt;

#[derive(Clone, Copy, PartialEq, Eq, Debug)]
pub enum Refusal {
    // A rule's number is above 255.
    RuleNumber = 1,
    // A pattern's length is one that its kind lacks.
    Length = 2,
    // A bit is set beyond a pattern's length, or above its width.
    BitBeyond = 3,
    // The rule's number stands already.
    Standing = 4,
    // The rule's number does not stand.
    NotStanding = 5,
    // The subset limit is 0 or above 32.
    SubsetLimit = 6,
    // The growth limit is 0 or above 64.
    GrowthLimit = 7,
    // The engine is not grouped.
    Ungrouped = 8,
    // What is to be written does not fit the places of the output.
    NoRoom = 9,
    // The bytes of a sheet are none, or not whole words.
    ByteCount = 10,
    // A word is of a kind that is not due.
    WordKind = 11,
    // A bit of a word that has to be 0 is set, or its side is the wrong one.
    WordBits = 12,
    // A rule's number is not above the one before it.
    RuleOrder = 13,
    // The end word counts other than the rules before it.
    RuleCount = 14,
    // The words run out, or go on after the end word.
    SheetEnd = 15,
    // A packet has under 20 bytes.
    PacketBytes = 16,
    // A packet's version is not 4.
    Version = 17,
    // A packet's header length is under 5 words.
    HeaderLength = 18,
    // A packet's total length is below its header or above its bytes.
    TotalLength = 19,
    // A first fragment of TCP or UDP ends before its ports do.
    Ports = 20,
    // A header block is no whole number of headers, or has a last byte that is not 0.
    HeaderBlock = 23,
    // Memory could not be had.
    Memory = 99,
}

impl Refusal {
    pub fn number(self) -> u8
        ensures { result ≡ code self }
    {
        self as u8
    }
}

// What is refused for want of memory.
impl From<AllocError> for Refusal {
    ghost from_gives = { λ _ e. e ≡ Memory };

    fn from(_: AllocError) -> Refusal {
        Refusal::Memory
    }
}

impl fmt::Display for Refusal {
    ghost output = { λ e. Some (text e) };

    fn fmt<W: fmt::Write>(&self, f: &mut fmt::Formatter<W>) -> fmt::Result {
        let number = self.number();
        write!(f, "refused {number}")
    }
}
