// The length map of a held prefix.
ghost use Rattle.std.specs.Prelude.{◌≡◌, ◌<◌, ◌≤◌, length, MatchOption, slice_index_or};
ghost use Rattle.fields.specs.Prefixes.{within as within_prefix};
ghost use Rattle.fields.specs.PrefixLaws.{whole as whole_prefix};
ghost use Rattle.levels.specs.Levels.{level as level_of};
ghost use Rattle.levels.specs.Maps.{Maps};

use fields::kind::FieldKind;
use fields::numbers::Level;
use fields::prefix::Prefix;
use fields::prefixes::Prefixes;

// The kind of the prefixes; its header values do not matter here.
type Kind<const W: u8, const S: u8> = Prefixes<u32, W, S>;

// Bit n stands for the prefixes of length n.
#[derive(Clone, Copy, PartialEq, Eq, Debug)]
pub struct LengthMap {
    pub lengths: u64,
}

// The length map of the prefix at a place, or none where nothing stands there.
pub fn length_map<const W: u8, const S: u8>(
    held: &[Prefix<W, S>],
    place: usize,
) -> Option<LengthMap>
    ensures { MatchOption result (length held.now ≤ place) (λ m. (place < length held.now) × ((d : Prefix W S) → Maps W S held.now (slice_index_or held.now place d) m.lengths)) }
{
    let p = *held.get(place)?;
    let mut lengths = 0;
    for q in held {
        let bits = Kind::<W, S>::length(*q).bits;
        if bits > 0 && Kind::<W, S>::within(p, *q) {
            lengths |= 1u64 << bits;
        }
    }
    Some(LengthMap { lengths })
}

// The nested level of the prefix at a place, which is the count of ones over its length map.
pub fn level_by_map<const W: u8, const S: u8>(held: &[Prefix<W, S>], place: usize) -> Option<Level>
    ensures { MatchOption result (length held.now ≤ place) (λ l. (place < length held.now) × ((d : Prefix W S) → l.around ≡ level_of (within_prefix W S) (whole_prefix W S) held.now (slice_index_or held.now place d))) }
{
    let map = length_map(held, place)?;
    Some(Level {
        around: map.lengths.count_ones() as usize,
    })
}
