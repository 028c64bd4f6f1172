// A pattern: the first bits of a number of W bits. Its length is 0, or from S to W, and to 32 at most.
ghost use Rattle.std.specs.Prelude.{◌≡◌, true};
ghost use Rattle.fields.specs.Lengths.{has, clean};

#[derive(Clone, Copy, PartialEq, Eq, Debug)]
pub struct Prefix<const W: u8, const S: u8> {
    pub(crate) length: u8,
    pub(crate) number: u32,
    // the kind has this length
    ghost known: { has W S length ≡ true },
    // no bit is set beyond the length or above the width
    ghost plain: { clean W length number ≡ true },
}
