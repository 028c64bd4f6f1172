// The same calls to two finders.
use crate::random::Xorshift;
use crate::report::{Outcome, Report};
use fields::kind::FieldKind;
use fields::numbers::{Label, PrefixLength};
use finders::finder::Finder;

// Header values that can be drawn. One impl for each: what `from_word` keeps is as many of the highest bits as it has room for.
pub trait Drawn: Copy {
    // The value of the highest bits.
    fn from_word(word: u32) -> Self;
}

impl Drawn for u32 {
    fn from_word(word: u32) -> u32 {
        word
    }
}

impl Drawn for u16 {
    fn from_word(word: u32) -> u16 {
        (word >> 16) as u16
    }
}

// A call is data and no closure, since two finders are given the same.
#[derive(Clone, Copy)]
enum Call<P, V> {
    Clear,
    Take(P),
    Best(V),
    Parent(Label),
    Pattern(Label),
}

// What a kind tells of a pattern.
#[derive(Clone, Copy, PartialEq, Eq)]
struct Told {
    length: PrefixLength,
    number: u32,
}

#[derive(Clone, Copy, PartialEq, Eq)]
enum Answer {
    Cleared,
    Taken(Option<Label>),
    Found(Option<Label>),
    Meant(Option<Told>),
}

impl Answer {
    fn outcome(self) -> Outcome {
        match self {
            Answer::Taken(None) => Outcome::Refused,
            Answer::Found(Some(_)) | Answer::Meant(Some(_)) => Outcome::Found,
            _ => Outcome::Done,
        }
    }

    // How many patterns are held at least: labels go from 0 on.
    fn held(self) -> u16 {
        match self {
            Answer::Taken(Some(label)) => label.place.saturating_add(1),
            _ => 0,
        }
    }
}

// A sequence of calls, with patterns of at most a length.
#[derive(Clone, Copy)]
pub struct Sequence {
    pub seed: u64,
    pub calls: u32,
    pub longest: u8,
}

// How two finders took the same calls, and how many patterns they held at most.
#[derive(Clone, Copy)]
pub struct Compared {
    pub report: Report,
    pub held: u16,
}

// A pattern of at most a length; the whole one where the kind lacks the length that was drawn.
fn draw_pattern<K: FieldKind>(random: &mut Xorshift, longest: u8) -> K::Pattern {
    let bits = random.below(u16::from(longest) + 1) as u8;
    let beyond = 32u8.saturating_sub(bits);
    let first = random.sparse().checked_shr(u32::from(beyond)).unwrap_or(0);
    let rest = K::field_width().saturating_sub(bits);
    let number = first.checked_shl(u32::from(rest)).unwrap_or(0);
    K::make(PrefixLength { bits }, number).unwrap_or(K::whole())
}

// A label; some are never held, and a few are large.
fn draw_label(random: &mut Xorshift) -> Label {
    let bound = if random.below(16) == 0 { u16::MAX } else { 300 };
    Label {
        place: random.below(bound),
    }
}

fn draw_call<K: FieldKind>(random: &mut Xorshift, longest: u8) -> Call<K::Pattern, K::Value>
where
    K::Value: Drawn,
{
    if random.below(4000) == 0 {
        return Call::Clear;
    }
    match random.below(8) {
        0..=2 => Call::Take(draw_pattern::<K>(random, longest)),
        3..=4 => Call::Best(K::Value::from_word(random.sparse())),
        5..=6 => Call::Parent(draw_label(random)),
        _ => Call::Pattern(draw_label(random)),
    }
}

fn tell<K: FieldKind>(pattern: Option<K::Pattern>) -> Option<Told> {
    let p = pattern?;
    Some(Told {
        length: K::length(p),
        number: K::number(p),
    })
}

// Makes a call.
fn ask<F: Finder>(finder: &mut F, call: Call<F::Pattern, F::Value>) -> Answer
    requires { F.Finder.ready finder.old }
    ensures { F.Finder.ready finder.new }
{
    match call {
        Call::Clear => {
            finder.clear();
            Answer::Cleared
        }
        Call::Take(pattern) => Answer::Taken(finder.take(pattern)),
        Call::Best(value) => Answer::Found(finder.best(value)),
        Call::Parent(label) => Answer::Found(finder.parent(label)),
        Call::Pattern(label) => Answer::Meant(tell::<F::Kind>(finder.pattern(label))),
    }
}

// Makes every call of a sequence to both finders.
pub fn compare<A: Finder, B: Finder<Pattern = A::Pattern, Value = A::Value>>(
    one: &mut A,
    other: &mut B,
    sequence: Sequence,
) -> Compared
where
    A::Value: Drawn,
{
    let mut random = Xorshift::new(sequence.seed);
    let mut report = Report::default();
    let mut held = 0;
    one.clear();
    other.clear();
    for _ in 0..sequence.calls {
        let call = draw_call::<A::Kind>(&mut random, sequence.longest);
        let answer = ask(one, call);
        report.count(answer.outcome(), answer == ask(other, call));
        held = held.max(answer.held());
    }
    Compared { report, held }
}
