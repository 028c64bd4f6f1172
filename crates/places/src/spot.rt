// One place: a finder, its kind, and where its value stands in a header.
ghost use Rattle.std.specs.Prelude.{◌≡◌, ℕ, ◌<◌, ◌≤◌, List, [], ◌∷◌, length};
ghost use Rattle.fields.specs.Refusals.{refusal};
ghost use Rattle.finders.specs.Finding.{label_place, best_label, parent_label};
ghost use Rattle.places.specs.Kinds.{Kind};
ghost use Rattle.places.specs.Rows.{made, pattern_of};
ghost use Rattle.places.specs.Taking.{label_of, with_pattern};

use fields::kind::FieldKind;
use fields::numbers::Label;
use fields::refusal::Refusal;
use finders::finder::Finder;
use sheets::row::PatternRow;
use std::marker::PhantomData;

pub trait Spot {
    type Header;

    // The kind of the field, and the value that a header has there.
    ghost kind: { Kind };

    ghost value: { Self.Header → kind.Value };

    // The finder was cleared; what it holds, and how much it can.
    ghost ready: { Self → Type 0 };

    ghost held: { Self → List kind.Pattern };

    ghost room: { Self → ℕ };

    // Whether a row's part is a pattern of the kind.
    fn check(part: PatternRow) -> Result<(), Refusal>
        ensures { refusal result ≡ refusal (made kind part) };

    // Whether the pattern of a row's part matches a header.
    fn matches(part: PatternRow, header: &Self::Header) -> bool
        ensures { result ≡ kind.nest.matches (pattern_of kind part) (value header.now) };

    // Holds the whole pattern alone from now on.
    fn start(&mut self)
        ensures ready { ready self.new }
        ensures held { held self.new ≡ kind.nest.whole ∷ [] }
        ensures room { 257 ≤ room self.new };

    // The label of the pattern of a row's part, which is held from now on.
    fn take(&mut self, part: PatternRow) -> Label
        requires ready { ready self.old }
        requires space { length (held self.old) < room self.old }
        ensures ready { ready self.new }
        ensures label { result.place ≡ label_of kind.nest (held self.old) (pattern_of kind part) }
        ensures held { held self.new ≡ with_pattern kind.nest (held self.old) (pattern_of kind part) }
        ensures room { room self.new ≡ room self.old };

    // The label of the most specific pattern that matches a header.
    fn best(&self, header: &Self::Header) -> Option<Label>
        requires { ready self.now }
        ensures { label_place result ≡ best_label kind.nest (held self.now) (value header.now) };

    // The label of the nearest other pattern around that of a label.
    fn parent(&self, label: Label) -> Option<Label>
        requires { ready self.now }
        ensures { label_place result ≡ parent_label kind.nest (held self.now) label.place };
}

// Where the value of a field stands in a header.
pub trait Field {
    type Header;

    type Value: Copy;

    ghost value: { Self.Header → Self.Value };

    fn value_of(header: &Self::Header) -> Self::Value
        ensures { result ≡ value header.now };
}

// A finder at a field.
#[derive(Drop)]
pub struct At<F, L> {
    finder: F,
    field: PhantomData<L>,
}

impl<F, L> At<F, L> {
    pub fn new(finder: F) -> At<F, L>
        ensures { result.finder ≡ finder }
    {
        At {
            finder,
            field: PhantomData,
        }
    }
}

impl<F: Finder, L: Field<Value = F::Value>> Spot for At<F, L> {
    type Header = L::Header;

    ghost kind = { record { Pattern = F.Pattern; Value = F.Value; nest = F.Kind.nest } };

    ghost value = { L.Field.value };

    ghost ready = { λ s. F.Finder.ready s.finder };

    ghost held = { λ s. F.Finder.held s.finder };

    ghost room = { λ s. F.Finder.room s.finder };

    fn check(part: PatternRow) -> Result<(), Refusal> {
        F::Kind::make(part.length, part.number)?;
        Ok(())
    }

    fn matches(part: PatternRow, header: &L::Header) -> bool {
        F::Kind::matches(pattern::<F>(part), L::value_of(header))
    }

    fn start(&mut self) {
        self.finder.clear();
        let _ = self.finder.take(F::Kind::whole());
    }

    fn take(&mut self, part: PatternRow) -> Label {
        self.finder.take(pattern::<F>(part)).unwrap()
    }

    fn best(&self, header: &L::Header) -> Option<Label> {
        self.finder.best(L::value_of(header))
    }

    fn parent(&self, label: Label) -> Option<Label> {
        self.finder.parent(label)
    }
}

// The pattern of a row's part, or the whole one where the kind refuses it.
fn pattern<F: Finder>(part: PatternRow) -> F::Pattern
    ensures { result ≡ pattern_of (record { Pattern = F.Pattern; Value = F.Value; nest = F.Kind.nest }) part }
{
    F::Kind::make(part.length, part.number).unwrap_or(F::Kind::whole())
}
