// The rule reader.
ghost use Rattle.std.specs.Prelude.{◌≡◌, ◌+◌, ◌^◌, ◌<◌, [], ◌∷◌};
ghost use Rattle.fields.specs.Refusals.{refusal};
ghost use Rattle.sheets.specs.Rows.{or_else};
ghost use Rattle.sheets.specs.Words.{rest, size, low};
ghost use Rattle.sheets.specs.Reading.{at, parts, pattern_at, address_at, rule_at};
ghost use Rattle.sheets.specs.declared.part.Part.TheVariants.{Upper, Lower};
ghost use Rattle.reader.specs.Readers.{words_of, ReadsWord, Reads, form_refusal};

use crate::words::WordsFrom;
use fields::kind::FieldKind;
use fields::prefixes::{Address, Port, Protocol};
use fields::sides::Sides;
use sheets::fault::Fault;
use sheets::part::{Part, Side};
use sheets::row::{PatternRow, RuleRow};

impl WordsFrom<'_> {
    // The row, where it is a pattern of the kind; else the fault of the first word. By a `match`: through `map_err` and `?` it stayed open which.
    #[tactic(auto, unfolding(crate::specs::Readers::Refused))]
    fn known<K: FieldKind>(self, row: PatternRow) -> Result<PatternRow, Fault>
        ensures { ReadsWord (refusal (K.nest.make row.length.bits row.number)) self.entry.place row result }
    {
        match K::make(row.length, row.number) {
            Ok(_) => Ok(row),
            Err(refusal) => Err(self.fault(refusal)),
        }
    }

    // A pattern that takes one word.
    #[tactic(auto, unfolding(crate::specs::Readers::Refused))]
    fn pattern<K: FieldKind>(self, part: Part) -> Result<PatternRow, Fault>
        ensures { let ws = words_of self.entry.words.now in let i = self.entry.place in ReadsWord (or_else (form_refusal ws part i) (refusal (K.nest.make (size (at ws i)) (low (at ws i))))) i (pattern_at ws i) result }
    {
        let row = self.part(part)?;
        self.known::<K>(row)
    }

    // A pattern that takes two words: the length is looked at with the upper half, and the number with the lower.
    #[tactic(auto, using(crate::proofs::Dues::halves_read))]
    fn address(self, side: Side) -> Result<PatternRow, Fault>
        requires { self.place + 1 < 2 ^ 64 }
        ensures { let ws = words_of self.entry.words.now in let i = self.entry.place in Reads ws (Upper side ∷ Lower side ∷ []) i (address_at ws i) result }
    {
        let upper = self.part(Part::Upper(side))?;
        let bare = self.known::<Address>(PatternRow { number: 0, ..upper })?;
        let next = self.on(1);
        let lower = next.part(Part::Lower(side))?;
        let number = upper.number * (1 << 16) + lower.number;
        next.known::<Address>(PatternRow { number, ..bare })
    }

    // The rule with this number, which the first word has; the words of its parts follow.
    #[tactic(auto, using(crate::proofs::Dues::lone_read, crate::proofs::Chains::rule_read))]
    pub(crate) fn rule(self, number: u32) -> Result<RuleRow, Fault>
        requires near { self.place + 8 < 2 ^ 64 }
        requires number { number ≡ rest (at (words_of self.words.now) self.place) }
        ensures { let ws = words_of self.entry.words.now in let i = self.entry.place in Reads ws parts (i + 1) (rule_at ws i) result }
    {
        let source = self.on(1).address(Side::Source)?;
        let destination = self.on(3).address(Side::Destination)?;
        let source_port = self.on(5).pattern::<Port>(Part::Port(Side::Source))?;
        let destination_port = self.on(6).pattern::<Port>(Part::Port(Side::Destination))?;
        let protocol = self.on(7).pattern::<Protocol>(Part::Protocol)?;
        Ok(RuleRow {
            number,
            addresses: Sides {
                source,
                destination,
            },
            ports: Sides {
                source: source_port,
                destination: destination_port,
            },
            protocol,
        })
    }
}
