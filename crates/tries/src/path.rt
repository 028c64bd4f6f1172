// The first bits of a number, from the highest on.
ghost use Rattle.std.specs.Prelude.{◌≡◌, ◌≤◌, MatchOption};
ghost use Rattle.std.specs.Iterator.{YieldsFirst, item_count};
ghost use Rattle.tries.specs.Digits.{digit};

// The bits that are still to come: the first `length` of the lowest `width` bits of a number; 32 at most.
#[derive(Clone, Copy)]
pub struct BitPath {
    pub(crate) number: u32,
    pub(crate) width: u8,
    pub(crate) length: u8,
    ghost short: { length ≤ width },
    ghost narrow: { length ≤ 32 },
}

// Whether the bit at a place, counted from the lowest, is set.
#[tactic(auto, using(crate::proofs::Paths::digit_past), unfolding(crate::specs::Digits::digit))]
fn is_set(number: u32, place: u8) -> bool
    ensures { result ≡ digit place number }
{
    place < 32 && (number >> place) % 2 == 1
}

impl BitPath {
    ghost use Rattle.tries.specs.Spelling.{Shorter};

    // All but the last bit, or none where there are no bits.
    pub(crate) fn shorter(mut self) -> Option<BitPath>
        ensures { MatchOption result (self.length ≡ 0) (Shorter self) }
    {
        self.length = self.length.checked_sub(1)?;
        Some(self)
    }
}

// The bits one after another.
impl Iterator for BitPath {
    ghost use Rattle.tries.specs.Spelling.{bits};

    type Item = bool;

    ghost next_gives = { YieldsFirst bits };

    ghost remaining = { item_count bits };

    #[tactic(auto, using(crate::proofs::Paths::first_steps), unfolding(crate::specs::Spelling::bits))]
    fn next(&mut self) -> Option<bool> {
        if self.length == 0 {
            return None;
        }
        self.width -= 1;
        self.length -= 1;
        Some(is_set(self.number, self.width))
    }
}
