// Tests on the bits of plain numbers. W is the width of a kind, and S its shortest length.
ghost use Rattle.std.specs.Prelude.{◌≡◌, ◌-◌, ◌/◌, ◌%◌, ◌^◌, ◌&&◌, ◌==◌, nat_le, nat_lt};
ghost use Rattle.fields.specs.Lengths.{has, clean as clean_at, first_bits};

// No bit is set below a place.
fn clean(number: u32, place: u8) -> bool
    ensures { result ≡ (number % 2 ^ place == 0) }
{
    if place < 32 {
        number % (1u32 << place) == 0
    } else {
        number == 0
    }
}

// No bit is set at or above a place.
fn below(number: u32, place: u8) -> bool
    ensures { result ≡ nat_lt number (2 ^ place) }
{
    place >= 32 || number < 1u32 << place
}

// Whether the kind has a length.
pub(crate) fn has_length<const W: u8, const S: u8>(length: u8) -> bool
    ensures { result ≡ has W S length }
{
    length <= W && (length <= 32 && (length == 0 || S <= length))
}

// Whether no bit of a number is set above the width or beyond the length.
pub(crate) fn is_clean<const W: u8>(length: u8, number: u32) -> bool
    ensures { result ≡ clean_at W length number }
{
    below(number, W) && clean(number, W.saturating_sub(length))
}

// The first bits of a number, as many as `length`.
pub(crate) fn first_bits<const W: u8>(length: u8, number: u32) -> u32
    ensures { result ≡ first_bits W length number }
{
    let rest = W.saturating_sub(length);
    if rest < 32 { number >> rest } else { 0 }
}

// The lowest bits of a number, as many as the width.
pub(crate) fn lowest<const W: u8>(number: u32) -> u32
    ensures { result ≡ number % 2 ^ W }
{
    if W < 32 { number % (1u32 << W) } else { number }
}
