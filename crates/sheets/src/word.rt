// The kinds of words.
ghost use Rattle.std.specs.Prelude.{◌≡◌, ◌≢◌, MatchResult};
ghost use Rattle.sheets.specs.Kinds.{number_of};
ghost use Rattle.sheets.specs.Words.{kind};
ghost use Rattle.sheets.specs.declared.word.WordKind.{WordKind};

#[derive(Clone, Copy, PartialEq, Eq, Debug)]
pub enum WordKind {
    // Opens a rule with its number.
    Rule = 1,
    // These four are parts of a rule.
    Upper = 2,
    Lower = 3,
    Port = 4,
    Protocol = 5,
    // Ends the sheet with the count of its rules.
    End = 6,
}

impl WordKind {
    pub fn number(self) -> u32
        ensures { result ≡ number_of self }
    {
        self as u32
    }
}

// A word of no kind.
#[derive(Clone, Copy, PartialEq, Eq, Debug)]
pub struct NoKind;

// The kind of a word, which its bits 31-29 number.
impl TryFrom<u32> for WordKind {
    type Error = NoKind;

    ghost try_from_gives = { λ word r. MatchResult r (λ k. number_of k ≡ kind word) (λ _. (k : WordKind) → number_of k ≢ kind word) };

    fn try_from(word: u32) -> Result<WordKind, NoKind> {
        match word >> 29 {
            1 => Ok(WordKind::Rule),
            2 => Ok(WordKind::Upper),
            3 => Ok(WordKind::Lower),
            4 => Ok(WordKind::Port),
            5 => Ok(WordKind::Protocol),
            6 => Ok(WordKind::End),
            _ => Err(NoKind),
        }
    }
}
