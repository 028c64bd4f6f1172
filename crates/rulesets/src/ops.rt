// What is done with sets.
ghost use Rattle.std.specs.Prelude.{◌≡◌, ℕ, false, ◌&&◌, ◌||◌, [], ◌++◌, length, is_some, ◌==◌};
ghost use Rattle.std.specs.Option.{option_to_list};
ghost use Rattle.rulesets.specs.Sets.{has as has_number, members};

use crate::ruleset::RuleSet;
use std::ops::{BitAnd, BitOr};

impl RuleSet {
    // No numbers.
    pub fn new() -> RuleSet
        ensures { members result ≡ [] }
    {
        RuleSet { words: [0; 4] }
    }

    // Bits in words, as in a filter of keys; two lines there and here, where a crate for both would say no less.
    pub fn has(self, n: u8) -> bool
        ensures { result ≡ has_number self n }
    {
        let n = n as usize;
        (self.words[n / 64] >> (n % 64)) & 1 == 1
    }

    // One number more.
    pub fn with(self, n: u8) -> RuleSet
        ensures { (m : ℕ) → has_number result m ≡ (m == n || has_number self m) }
    {
        let n = n as usize;
        let mut words = self.words;
        words[n / 64] |= 1 << (n % 64);
        RuleSet { words }
    }

    pub fn is_empty(self) -> bool
        ensures { result ≡ (length (members self) == 0) }
    {
        self.words == [0; 4]
    }

    pub fn count(self) -> usize
        ensures { result ≡ length (members self) }
    {
        let [a, b, c, d] = self.words;
        (a.count_ones() + b.count_ones() + c.count_ones() + d.count_ones()) as usize
    }

    // Takes out the lowest number, unless there is none.
    pub fn pop_first(&mut self) -> Option<u8>
        ensures taken { members self.old ≡ option_to_list result ++ members self.new }
        ensures none { is_some result ≡ false → members self.old ≡ [] }
    {
        let i = self.words.iter().position(|word| *word != 0)?;
        let word = self.words[i];
        self.words[i] = word & (word - 1);
        Some(i as u8 * 64 + word.trailing_zeros() as u8)
    }
}

// The numbers that are in both.
impl BitAnd for RuleSet {
    type Output = RuleSet;

    ghost bitand_gives = { λ s t r. (m : ℕ) → has_number r m ≡ (has_number s m && has_number t m) };

    fn bitand(self, other: RuleSet) -> RuleSet {
        let [a, b, c, d] = self.words;
        let [e, f, g, h] = other.words;
        RuleSet {
            words: [a & e, b & f, c & g, d & h],
        }
    }
}

// The numbers that are in one of them.
impl BitOr for RuleSet {
    type Output = RuleSet;

    ghost bitor_gives = { λ s t r. (m : ℕ) → has_number r m ≡ (has_number s m || has_number t m) };

    fn bitor(self, other: RuleSet) -> RuleSet {
        let [a, b, c, d] = self.words;
        let [e, f, g, h] = other.words;
        RuleSet {
            words: [a | e, b | f, c | g, d | h],
        }
    }
}
