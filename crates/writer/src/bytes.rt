// Words into bytes.
ghost use Rattle.std.specs.Prelude.{◌≡◌, ◌+◌, ◌*◌, ◌≤◌, ◌++◌, length, drop};
ghost use Rattle.std.specs.List.{flat_map};
ghost use Rattle.sheets.specs.Format.{sheet_bytes};
ghost use Rattle.sheets.specs.Words.{word_bytes};
ghost use Rattle.octets.specs.Output.{put_at};

use crate::checks::Checked;
use crate::words;

// A word has four bytes.
const WORD_BYTES: usize = 4;

// A rule has eight words.
const RULE_BYTES: usize = 8 * WORD_BYTES;

// Writes a word at a place of the output, its highest byte first.
// The place is a number: of what is written through `chunks_exact_mut` or `as_chunks_mut` a proof knows the length alone.
fn put_word(out: &mut [u8], at: usize, word: u32)
    requires { at + 4 ≤ length out.old }
    ensures { out.new ≡ put_at at (word_bytes word) out.old }
{
    out[at..at + WORD_BYTES].copy_from_slice(&word.to_be_bytes());
}

// Writes words one after another, the first at a place of the output.
#[tactic(auto, using(octets::proofs::Puts::put_none, octets::proofs::Puts::put_all))]
fn put_words(out: &mut [u8], at: usize, words: &[u32])
    requires { at + 4 * length words.now ≤ length out.old }
    ensures { out.new ≡ put_at at (flat_map word_bytes words.now) out.old }
{
    for (i, word) in words.iter().enumerate() {
        put_word(out, at + WORD_BYTES * i, *word);
    }
}

impl Checked<'_> {
    // How many bytes the sheet has.
    #[tactic(auto, using(crate::proofs::Sheets::length_sheet))]
    pub(crate) fn size(self) -> usize
        ensures { result ≡ length (sheet_bytes self.entry.rules.now) }
    {
        RULE_BYTES * self.rules.len() + WORD_BYTES
    }

    // Writes the sheet at the front of the output.
    #[tactic(auto, using(crate::proofs::Sheets::length_sheet, crate::proofs::Rows::fitting_at, sheets::proofs::Rows::few, octets::proofs::Puts::put_none))]
    pub(crate) fn put(self, out: &mut [u8])
        requires { length (sheet_bytes self.rules.now) ≤ length out.old }
        ensures { out.new ≡ sheet_bytes self.entry.rules.now ++ drop (length (sheet_bytes self.entry.rules.now)) out.old }
    {
        for (i, rule) in self.rules.iter().enumerate() {
            put_words(out, RULE_BYTES * i, &words::words_of_rule(*rule));
        }
        let count = self.rules.len();
        put_word(out, RULE_BYTES * count, words::end_word(count as u32));
    }
}
