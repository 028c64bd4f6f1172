// Numbers in bytes, the highest byte first.
#![tactic(auto)]

ghost use Rattle.std.specs.Prelude.{◌≡◌, ℕ, ◌+◌, ◌<◌, drop, slice_index};
ghost use Rattle.std.specs.Int.{w16, w32, from_be_bytes};
ghost use Rattle.octets.specs.Numbers.{byte, two, four};

use std::array;

// The byte at a place, or 0 past the end.
pub fn byte_at(bytes: &[u8], place: usize) -> u8
    ensures { result ≡ byte bytes.now place }
{
    bytes.get(place).copied().unwrap_or(0)
}

// What there is from a place on.
fn rest_from(bytes: &[u8], place: usize) -> &[u8]
    ensures { result.now ≡ drop place bytes.now }
{
    bytes.get(place..).unwrap_or(&[])
}

// The bytes from a place on; what lies past the end counts as 0.
pub fn bytes_at<const N: usize>(bytes: &[u8], place: usize) -> [u8; N]
    ensures each { (k : ℕ) → k < N → slice_index result k ≡ byte bytes.now (place + k) }
    ensures two { N ≡ 2 → from_be_bytes w16 result ≡ two bytes.now place }
    ensures four { N ≡ 4 → from_be_bytes w32 result ≡ four bytes.now place }
{
    let rest = rest_from(bytes, place);
    if let Some(found) = rest.first_chunk::<N>() {
        return *found;
    }
    let mut found = [0; N];
    found[..rest.len()].copy_from_slice(rest);
    found
}
