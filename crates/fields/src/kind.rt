// A kind of field: its patterns, its header values, and what they mean.
ghost use Rattle.std.specs.Prelude.{◌≡◌, true, ℕ};
ghost use Rattle.fields.specs.Nest.{Nest};

use crate::numbers::PrefixLength;
use crate::refusal::Refusal;

pub trait FieldKind {
    // What a rule asks of the field, and what a header has there.
    type Pattern: Copy;

    type Value: Copy;

    // The bits of a header value.
    const WIDTH: u8;

    ghost WIDTH: { ℕ };

    ghost nest: { Nest Self.Pattern Self.Value };

    fn field_width() -> u8
        ensures { result ≡ nest.width };

    // The pattern of a length and a number, or a refusal.
    fn make(length: PrefixLength, number: u32) -> Result<Self::Pattern, Refusal>
        ensures { result ≡ nest.make length.bits number };

    fn length(p: Self::Pattern) -> PrefixLength
        ensures { result.bits ≡ nest.length p };

    fn number(p: Self::Pattern) -> u32
        ensures { result ≡ nest.number p };

    // The pattern of length 0, which matches every value.
    fn whole() -> Self::Pattern
        ensures { result ≡ nest.whole };

    fn matches(p: Self::Pattern, v: Self::Value) -> bool
        ensures { result ≡ nest.matches p v };

    // Whether a lies within b.
    fn within(a: Self::Pattern, b: Self::Pattern) -> bool
        ensures { result ≡ nest.within a b };
}

// A kind whose constant is the width that its laws speak of. A law of its own, since no call that takes a kind needs it.
pub trait KnownWidth: FieldKind {
    ghost wide: { Self.FieldKind.WIDTH ≡ Self.FieldKind.nest.width };
}
