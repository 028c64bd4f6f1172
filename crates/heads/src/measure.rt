// How far tuples are apart.
ghost use Rattle.std.specs.Prelude.{◌≡◌, ◌+◌, ◌-◌, ◌<◌, map, length};
ghost use Rattle.groups.specs.Tuples.{distance, nearest_head};
ghost use Rattle.heads.specs.Counts.{levels_of};

use crate::tuple::Tuple;
use fields::numbers::Level;

// The absolute difference of two levels.
fn apart(a: Level, b: Level) -> usize
    ensures { result ≡ (a.around - b.around) + (b.around - a.around) }
{
    a.around.abs_diff(b.around)
}

impl Tuple {
    // The sum of the absolute differences of the levels.
    pub fn distance(self, other: Tuple) -> usize
        ensures { result ≡ distance (levels_of self) (levels_of other) }
    {
        let a = self.levels;
        let b = other.levels;
        apart(a.addresses.source, b.addresses.source)
            + apart(a.addresses.destination, b.addresses.destination)
            + apart(a.ports.source, b.ports.source)
            + apart(a.ports.destination, b.ports.destination)
            + apart(a.protocol, b.protocol)
    }

    // The place of the nearest head, of several the first; 0 where there are no heads.
    pub fn nearest(self, heads: &[Tuple]) -> usize
        ensures place { result ≡ nearest_head (levels_of self) (map levels_of heads.now) }
        ensures within { 0 < length heads.now → result < length heads.now }
    {
        // By index, as the library's own page on it has it: `min_by_key` tells only turn by turn that it keeps the first of several.
        let mut best = 0;
        for i in 1..heads.len() {
            if self.distance(heads[i]) < self.distance(heads[best]) {
                best = i;
            }
        }
        best
    }
}
