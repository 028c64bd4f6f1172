// Where a key's bits stand in a filter.
ghost use Rattle.std.specs.Prelude.{◌≡◌, ◌<◌, slice_index, EachIndex};
ghost use Rattle.screens.specs.Places.{overlaid, stirred, taken_in, mixed, part, places_of};

use keytables::key::Key;

// What a word begins with: not 0, so that a key of zeros has four places too.
const START: u64 = 0x9e37_79b9_7f4a_7c15;

// A large odd number, without order in its bits.
const FACTOR: u64 = 0xd6e8_feb8_6659_fd93;

// The upper half of a word laid over the lower one.
#[tactic(auto, unfolding(crate::specs::Places::overlaid))]
fn overlay(word: u64) -> u64
    ensures { result ≡ overlaid word }
{
    word ^ (word >> 32)
}

// Carries the bits of a word into those above them.
#[tactic(auto, unfolding(crate::specs::Places::stirred))]
fn stir(word: u64) -> u64
    ensures { result ≡ stirred word }
{
    overlay(word).wrapping_mul(FACTOR)
}

// Takes one more number into a word.
#[tactic(auto, unfolding(crate::specs::Places::taken_in))]
fn take_in(word: u64, number: u16) -> u64
    ensures { result ≡ taken_in word number }
{
    stir(word ^ u64::from(number))
}

// The six numbers of a key in one word.
#[tactic(auto, unfolding(crate::specs::Places::mixed))]
fn mix(key: Key) -> u64
    ensures { result ≡ mixed key }
{
    let word = key
        .numbers()
        .iter()
        .fold(START, |word, number| take_in(word, *number));
    overlay(stir(word))
}

// One of the four places that a word names.
#[tactic(auto, using(std::proofs::lemmas::Nat::and_mask), unfolding(crate::specs::Places::part))]
fn place(word: u64, index: u8) -> usize
    requires { index < 4 }
    ensures value { result ≡ part word index }
    ensures below { result < 32768 }
{
    ((word >> (16 * index)) & 0x7fff) as usize
}

// The four places of a key.
pub(crate) fn places(key: Key) -> [usize; 4]
    ensures value { result ≡ places_of key }
    ensures below { EachIndex result (λ i. slice_index result i < 32768) }
{
    let word = mix(key);
    // Written out: with `map` over an array of the indices it stayed open that each is below 4.
    [
        place(word, 0),
        place(word, 1),
        place(word, 2),
        place(word, 3),
    ]
}
