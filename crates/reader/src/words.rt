// The word reader.
ghost use Rattle.std.specs.Prelude.{◌≡◌, ◌+◌, ◌^◌, ◌<◌, [], ◌∷◌, None};
ghost use Rattle.sheets.specs.Faults.{fault_at};
ghost use Rattle.sheets.specs.Reading.{at, pattern_at, in_form};
ghost use Rattle.sheets.specs.Words.{rest, side, size, low};
ghost use Rattle.reader.specs.Readers.{words_of, ReadsWord, missing_or, form_refusal};

use fields::numbers::PrefixLength;
use fields::refusal::Refusal;
use sheets::fault::Fault;
use sheets::part::Part;
use sheets::row::PatternRow;
use sheets::word::WordKind;

#[derive(Clone, Copy)]
pub(crate) struct Word {
    pub(crate) bits: u32,
}

impl Word {
    // Bits 28-0.
    pub(crate) fn rest(self) -> u32
        ensures { result ≡ rest self.bits }
    {
        self.bits % (1 << 29)
    }

    // Bit 28.
    fn side(self) -> u32
        ensures { result ≡ side self.bits }
    {
        (self.bits >> 28) % 2
    }

    // Bits 27-22.
    fn size(self) -> u8
        ensures { result ≡ size self.bits }
    {
        ((self.bits >> 22) % 64) as u8
    }

    // Bits 21-0.
    fn low(self) -> u32
        ensures { result ≡ low self.bits }
    {
        self.bits % (1 << 22)
    }

    // Whether the bits that have to be 0 in the word of a part are, and its side is the right one.
    fn in_form(self, part: Part) -> bool
        ensures { result ≡ in_form (self.bits ∷ []) part 0 }
    {
        self.side() == part.side_bit()
            && match part {
                Part::Upper(_) | Part::Port(_) => self.low() < 1 << 16,
                Part::Lower(_) => self.size() == 0 && self.low() < 1 << 16,
                Part::Protocol => self.low() < 1 << 8,
            }
    }
}

// The words of a sheet from a place on.
#[derive(Clone, Copy)]
pub(crate) struct WordsFrom<'a> {
    // All of them.
    pub(crate) words: &'a [[u8; 4]],
    pub(crate) place: usize,
}

impl<'a> WordsFrom<'a> {
    // From n words further on. How far a place may be, each call asks for itself: no one bound holds of every cursor.
    pub(crate) fn on(self, n: usize) -> WordsFrom<'a>
        requires { self.place + n < 2 ^ 64 }
        ensures words { result.words.now ≡ self.entry.words.now }
        ensures place { result.place ≡ self.entry.place + n }
    {
        WordsFrom {
            words: self.words,
            place: self.place + n,
        }
    }

    // What is wrong with the first of the words.
    pub(crate) fn fault(self, refusal: Refusal) -> Fault
        ensures { result ≡ fault_at refusal self.entry.place }
    {
        Fault::at(refusal, self.place)
    }

    // The first word, its highest byte first.
    #[tactic(auto, using(crate::proofs::Bytes::at_words_of, crate::proofs::Bytes::present, crate::proofs::Bytes::missing), unfolding(crate::specs::Readers::Refused))]
    pub(crate) fn word(self) -> Result<Word, Fault>
        ensures { let ws = words_of self.entry.words.now in ReadsWord (missing_or ws None self.entry.place) self.entry.place (record { bits = at ws self.entry.place }) result }
    {
        let Some(bytes) = self.words.get(self.place) else {
            return Err(self.fault(Refusal::SheetEnd));
        };
        Ok(Word {
            bits: u32::from_be_bytes(*bytes),
        })
    }

    // The length and the number that the first word has, if it is one of the part, of its kind and its form.
    #[tactic(auto, unfolding(crate::specs::Readers::Refused))]
    pub(crate) fn part(self, part: Part) -> Result<PatternRow, Fault>
        ensures { let ws = words_of self.entry.words.now in ReadsWord (form_refusal ws part self.entry.place) self.entry.place (pattern_at ws self.entry.place) result }
    {
        let word = self.word()?;
        if WordKind::try_from(word.bits) != Ok(part.kind()) {
            return Err(self.fault(Refusal::WordKind));
        }
        if !word.in_form(part) {
            return Err(self.fault(Refusal::WordBits));
        }
        Ok(PatternRow {
            length: PrefixLength { bits: word.size() },
            number: word.low(),
        })
    }
}
