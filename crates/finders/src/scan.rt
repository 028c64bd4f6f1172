// A finder that looks at every pattern in turn, for every kind.
ghost use Rattle.std.specs.Prelude.{◌≡◌, ◌<◌, ◌≤◌, Bool, [], IfSome, IfOk, vec_len, vec_capacity};
ghost use Rattle.finders.specs.Finding.{label_place, known as known_place};
ghost use Rattle.finders.specs.Nearer.{nearer as nearer_place, innermost as innermost_place, Tells, Nested};

use crate::finder::{Finder, ROOM};
use fields::kind::FieldKind;
use fields::numbers::Label;
use levels::nesting::{around, same};
use std::alloc::{AllocError, Global};

// The label of a place.
fn label_at(place: usize) -> Label
    requires { place < 257 }
    ensures { result.place ≡ place }
{
    Label {
        place: place as u16,
    }
}

#[derive(Drop)]
pub struct Scan<K: FieldKind> {
    patterns: Vec<K::Pattern>,
    ghost few: { vec_len patterns ≤ 257 },
    ghost reserved: { 257 ≤ vec_capacity patterns },
}

impl<K: FieldKind> Scan<K> {
    // A scan that holds nothing yet.
    pub fn new(heap: Global) -> Result<Scan<K>, AllocError>
        ensures { IfOk result (λ s. s.patterns.items ≡ []) }
    {
        let patterns = Vec::with_capacity(heap, ROOM)?;
        Ok(Scan { patterns })
    }

    // The place of a pattern that is held.
    fn known(&self, p: K::Pattern) -> Option<usize>
        ensures { result ≡ known_place K.FieldKind.nest self.now.patterns.items p }
    {
        self.patterns.iter().position(|q| same::<K>(p, *q))
    }

    // The place i where nothing was found yet or its pattern lies strictly within that of what was found, else what was found.
    fn nearer(&self, found: Option<usize>, i: usize) -> usize
        requires here { i < vec_len self.now.patterns }
        requires found { IfSome found (λ b. b < vec_len self.now.patterns) }
        ensures { result ≡ nearer_place K.FieldKind.nest self.now.patterns.items found i }
    {
        match found {
            Some(b) if !around::<K>(self.patterns[i], self.patterns[b]) => b,
            _ => i,
        }
    }

    // The label of the pattern that passes a test and lies within all that pass, where those nest.
    fn innermost<T: Fn(K::Pattern) -> bool>(&self, test: T) -> Option<Label>
        requires { T.IsAlwaysCallable test }
        ensures { (t : K.Pattern → Bool) → Tells (T.post test) t → Nested K.FieldKind.nest t → label_place result ≡ innermost_place K.FieldKind.nest self.now.patterns.items t }
    {
        let mut found = None;
        for (i, p) in self.patterns.iter().enumerate() {
            if test(*p) {
                found = Some(self.nearer(found, i));
            }
        }
        found.map(label_at)
    }
}

impl<K: FieldKind> Finder for Scan<K> {
    type Pattern = K::Pattern;

    type Value = K::Value;

    type Kind = K;

    ghost ready = { λ _. Unit {0} };

    ghost held = { λ s. s.patterns.items };

    ghost room = { λ _. 257 };

    fn clear(&mut self) {
        self.patterns.clear();
    }

    fn take(&mut self, p: K::Pattern) -> Option<Label> {
        if let Some(place) = self.known(p) {
            return Some(label_at(place));
        }
        let count = self.patterns.len();
        if count >= ROOM {
            return None;
        }
        self.patterns.push_reserved(p);
        Some(label_at(count))
    }

    fn best(&self, v: K::Value) -> Option<Label> {
        self.innermost(|p| K::matches(p, v))
    }

    fn parent(&self, label: Label) -> Option<Label> {
        let p = self.pattern(label)?;
        self.innermost(|q| around::<K>(p, q))
    }

    fn pattern(&self, label: Label) -> Option<K::Pattern> {
        self.patterns.get(label.place as usize).copied()
    }
}
