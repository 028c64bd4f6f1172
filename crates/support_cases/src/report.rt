// How two implementations took the same calls.
use std::fmt;

// What came of a call, beside the value that it answered.
#[derive(Clone, Copy)]
pub enum Outcome {
    Done,
    Found,
    Refused,
}

#[derive(Clone, Copy, Default)]
pub struct Report {
    calls: u32,
    found: u32,
    refused: u32,
    differ: u32,
}

impl Report {
    // Counts a call that both answered the same, or not.
    pub fn count(&mut self, outcome: Outcome, same: bool) {
        self.calls = self.calls.saturating_add(1);
        match outcome {
            Outcome::Done => {}
            Outcome::Found => self.found = self.found.saturating_add(1),
            Outcome::Refused => self.refused = self.refused.saturating_add(1),
        }
        if !same {
            self.differ = self.differ.saturating_add(1);
        }
    }
}

impl fmt::Display for Report {
    fn fmt<W: fmt::Write>(&self, f: &mut fmt::Formatter<W>) -> fmt::Result {
        let Report {
            calls,
            found,
            refused,
            differ,
        } = *self;
        write!(
            f,
            "{calls} calls, {found} found, {refused} refused, {differ} answers differ"
        )
    }
}
