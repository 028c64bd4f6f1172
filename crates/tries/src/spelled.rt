// Kinds whose patterns are the first bits of values.
ghost use Rattle.std.specs.Prelude.{◌≡◌};
ghost use Rattle.tries.specs.Spelling.{Spelling, bits};

use crate::path::BitPath;
use fields::kind::FieldKind;

pub trait Spelled {
    type Pattern: Copy;

    type Value: Copy;

    // The kind of the patterns.
    type Kind: FieldKind<Pattern = Self::Pattern, Value = Self::Value>;

    // What the patterns mean, by their bits.
    ghost spelling: { Spelling Self.Pattern Self.Value };

    // The bits that a pattern fixes.
    fn path(p: Self::Pattern) -> BitPath
        ensures { bits result ≡ spelling.path p };

    // The bits of a value.
    fn spell(v: Self::Value) -> BitPath
        ensures { bits result ≡ spelling.spell v };

    // This is what the patterns mean to their kind.
    ghost meaning: { spelling.nest ≡ Self.Kind.FieldKind.nest };
}
