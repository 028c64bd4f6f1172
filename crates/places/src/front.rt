// Five places as one.
ghost use Rattle.std.specs.Prelude.{◌≡◌, ℕ, ◌<◌, ◌≤◌, List, [], ◌∷◌, length};
ghost use Rattle.fields.specs.Places.{index, at};
ghost use Rattle.fields.specs.Refusals.{refusal};
ghost use Rattle.finders.specs.Finding.{label_place, best_label, parent_label};
ghost use Rattle.groups.specs.Headers.{meets};
ghost use Rattle.places.specs.Kinds.{Kind, nesting, matching};
ghost use Rattle.places.specs.Rows.{part_at, pattern_of, patterns_refusal, rule_of};
ghost use Rattle.places.specs.Taking.{label_of, with_pattern};

use crate::located::{Labels, Located};
use fields::numbers::Label;
use fields::place::Place;
use fields::refusal::Refusal;
use sheets::row::RuleRow;

pub trait Front {
    type Header;

    // The kind of each place, and the value that a header has there.
    ghost kind: { ℕ → Kind };

    ghost value: { Self.Header → (i : ℕ) → (kind i).Value };

    // The finders were cleared; what the finder of each place holds, and how much it can.
    ghost ready: { Self → Type 0 };

    ghost held: { Self → (i : ℕ) → List (kind i).Pattern };

    ghost room: { Self → ℕ → ℕ };

    // Whether the parts of a row are patterns of their kinds.
    fn check(row: RuleRow) -> Result<(), Refusal>
        ensures { refusal result ≡ patterns_refusal kind row };

    // Whether all five patterns of a row match a header.
    fn matches(row: RuleRow, header: &Self::Header) -> bool
        ensures { result ≡ meets (nesting kind) (matching kind) (value header.now) (rule_of kind row) };

    // Each finder holds the whole pattern alone from now on.
    fn start(&mut self)
        ensures ready { ready self.new }
        ensures held { (i : ℕ) → held self.new i ≡ (kind i).nest.whole ∷ [] }
        ensures room { (i : ℕ) → 257 ≤ room self.new i };

    // The labels of the patterns of a row, which are held from now on.
    fn label(&mut self, row: RuleRow) -> Labels
        requires ready { ready self.old }
        requires space { (i : ℕ) → length (held self.old i) < room self.old i }
        ensures ready { ready self.new }
        ensures labels { (i : ℕ) → (at result i).place ≡ label_of (kind i).nest (held self.old i) (pattern_of (kind i) (part_at row i)) }
        ensures held { (i : ℕ) → held self.new i ≡ with_pattern (kind i).nest (held self.old i) (pattern_of (kind i) (part_at row i)) }
        ensures room { (i : ℕ) → room self.new i ≡ room self.old i };

    // The labels of the most specific patterns that match a header.
    fn locate(&self, header: &Self::Header) -> Located
        requires { ready self.now }
        ensures { (i : ℕ) → label_place (at result i) ≡ best_label (kind i).nest (held self.now i) (value header.now i) };

    // The label of the nearest other pattern around that of a label, at a place.
    fn parent(&self, place: Place, label: Label) -> Option<Label>
        requires { ready self.now }
        ensures { label_place result ≡ parent_label (kind (index place)).nest (held self.now (index place)) label.place };
}
