// Addresses, ports and protocols: one text for all prefixes.
ghost use Rattle.std.specs.Prelude.{◌≡◌, refl};
ghost use Rattle.fields.specs.Prefixes.{make, matches, within};
ghost use Rattle.fields.specs.PrefixLaws.{prefix_nest};

use crate::bits::Bits;
use crate::checks::{first_bits, has_length, is_clean, lowest};
use crate::kind::{FieldKind, KnownWidth};
use crate::numbers::PrefixLength;
use crate::prefix::Prefix;
use crate::refusal::Refusal;
use std::marker::PhantomData;

// The kind of the prefixes of numbers of W bits, whose lengths are 0 and from S to W, with the header values V.
pub struct Prefixes<V, const W: u8, const S: u8> {
    values: PhantomData<V>,
}

pub type Address = Prefixes<u32, 32, 1>;

pub type Port = Prefixes<u16, 16, 1>;

pub type Protocol = Prefixes<u8, 8, 8>;

impl<const W: u8, const S: u8> Prefix<W, S> {
    // The prefix of a length and a number, or a refusal.
    pub fn new(length: PrefixLength, number: u32) -> Result<Prefix<W, S>, Refusal>
        ensures { result ≡ make W S length.bits number }
    {
        let bits = length.bits;
        if !has_length::<W, S>(bits) {
            return Err(Refusal::Length);
        }
        if !is_clean::<W>(bits, number) {
            return Err(Refusal::BitBeyond);
        }
        Ok(Prefix {
            length: bits,
            number,
        })
    }

    // Whether a value begins with the bits of the pattern. Of its number the lowest W bits count.
    #[tactic(auto, unfolding(crate::specs::Prefixes::matches))]
    fn matches(self, value: u32) -> bool
        ensures { result ≡ matches W S self.entry value }
    {
        let bits = self.length;
        first_bits::<W>(bits, self.number) == first_bits::<W>(bits, lowest::<W>(value))
    }

    // Whether the pattern is as long as another and begins with its bits.
    #[tactic(auto, unfolding(crate::specs::Prefixes::within))]
    fn lies_within(self, outer: Prefix<W, S>) -> bool
        ensures { result ≡ within W S self.entry outer.entry }
    {
        let bits = outer.length;
        bits <= self.length
            && first_bits::<W>(bits, self.number) == first_bits::<W>(bits, outer.number)
    }
}

impl<V: Bits + Copy, const W: u8, const S: u8> FieldKind for Prefixes<V, W, S> {
    type Pattern = Prefix<W, S>;

    type Value = V;

    const WIDTH: u8 = W;

    ghost WIDTH = { W };

    ghost nest = { prefix_nest W S V.Bits.numbering };

    fn field_width() -> u8 {
        Self::WIDTH
    }

    fn make(length: PrefixLength, number: u32) -> Result<Prefix<W, S>, Refusal> {
        Prefix::new(length, number)
    }

    fn length(p: Prefix<W, S>) -> PrefixLength {
        PrefixLength { bits: p.length }
    }

    fn number(p: Prefix<W, S>) -> u32 {
        p.number
    }

    #[tactic(auto, using(crate::specs::PrefixLaws::same_prefix), unfolding(crate::specs::PrefixLaws::whole))]
    fn whole() -> Prefix<W, S> {
        Prefix {
            length: 0,
            number: 0,
        }
    }

    fn matches(p: Prefix<W, S>, v: V) -> bool {
        p.matches(v.to_number())
    }

    fn within(a: Prefix<W, S>, b: Prefix<W, S>) -> bool {
        a.lies_within(b)
    }
}

impl<V: Bits + Copy, const W: u8, const S: u8> KnownWidth for Prefixes<V, W, S> {
    ghost wide = { refl };
}
