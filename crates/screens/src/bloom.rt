// A screen of 32,768 bits.
ghost use Rattle.std.specs.Prelude.{◌≡◌, ◌<◌, replicate, IfOk, vec_len};
ghost use Rattle.screens.specs.Filters.{bit_at, marked, has_key, Added};

use crate::places::places;
use crate::screen::Screen;
use keytables::key::Key;
use std::alloc::{AllocError, Global};

const WORDS: usize = 512;

// A Bloom filter: a key has four bits, and is let through where all of them are set.
#[derive(Drop)]
pub struct Bloom {
    words: Vec<u64>,
    ghost sized: { vec_len words ≡ 512 },
}

impl Bloom {
    // A filter with no bit set.
    pub fn new(heap: Global) -> Result<Bloom, AllocError>
        ensures { IfOk result (λ b. b.words.items ≡ replicate 512 0) }
    {
        let words = vec![in heap; 0u64; WORDS]?;
        Ok(Bloom { words })
    }

    // Sets a bit, and leaves the others.
    fn mark(&mut self, bit: usize)
        requires { bit < 32768 }
        ensures { self.new.words.items ≡ marked self.old.words.items bit }
    {
        self.words[bit / 64] |= 1 << (bit % 64);
    }

    // Whether a bit is set.
    #[tactic(auto, using(std::proofs::lemmas::Nat::and_mask), unfolding(crate::specs::Filters::bit_at, crate::specs::Filters::bit_of))]
    fn is_marked(&self, bit: usize) -> bool
        requires { bit < 32768 }
        ensures { result ≡ bit_at self.now.words.items bit }
    {
        (self.words[bit / 64] >> (bit % 64)) & 1 == 1
    }
}

impl Screen for Bloom {
    // Words of any content have a meaning.
    ghost ready = { λ _. Unit {0} };

    ghost says = { λ b k. has_key b.words.items k };

    // No bit is left set.
    fn clear(&mut self)
        ensures words { self.new.words.items ≡ replicate 512 0 }
    {
        self.words.fill(0);
    }

    // Sets the four bits of the key, and leaves the others.
    #[tactic(auto, using(crate::proofs::Listed::added_bits))]
    fn add(&mut self, key: Key)
        ensures bits { Added self.old.words.items key self.new.words.items }
    {
        for bit in places(key) {
            self.mark(bit);
        }
    }

    fn ask(&self, key: Key) -> bool {
        places(key).iter().all(|bit| self.is_marked(*bit))
    }
}
