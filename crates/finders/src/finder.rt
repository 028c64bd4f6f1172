// What every finder does.
ghost use Rattle.std.specs.Prelude.{◌≡◌, ℕ, ◌≤◌, List, []};
ghost use Rattle.std.specs.List.{slice_get};
ghost use Rattle.finders.specs.Finding.{label_place, take_label, take_held, best_label, parent_label};

use fields::kind::FieldKind;
use fields::numbers::Label;

// How many patterns each finder here can hold: the whole pattern, and one for each of 256 rules.
pub const ROOM: usize = 257;

pub trait Finder {
    type Pattern: Copy;

    type Value: Copy;

    // The kind of the patterns, which tells what they mean.
    type Kind: FieldKind<Pattern = Self::Pattern, Value = Self::Value>;

    // The finder was cleared, and owes its meaning.
    // It stays in the clauses: an implementation may leave it open until `clear`, so that a new one may hold anything. All that are here hold it from the start.
    ghost ready: { Self → Type 0 };

    // The patterns that it holds, by their labels.
    ghost held: { Self → List Self.Pattern };

    // How many it can hold.
    ghost room: { Self → ℕ };

    fn clear(&mut self)
        ensures ready { ready self.new }
        ensures held { held self.new ≡ [] }
        ensures room { 257 ≤ room self.new };

    // The label of a pattern, which is held from now on; none where it is new and there is no room.
    fn take(&mut self, p: Self::Pattern) -> Option<Label>
        requires { ready self.old }
        ensures ready { ready self.new }
        ensures label { label_place result ≡ take_label Self.Kind.FieldKind.nest (held self.old) (room self.old) p }
        ensures held { held self.new ≡ take_held Self.Kind.FieldKind.nest (held self.old) (room self.old) p }
        ensures room { room self.new ≡ room self.old };

    // The label of the most specific pattern that matches a value.
    fn best(&self, v: Self::Value) -> Option<Label>
        requires { ready self.now }
        ensures { label_place result ≡ best_label Self.Kind.FieldKind.nest (held self.now) v };

    // The label of the nearest other pattern around that of a label.
    fn parent(&self, label: Label) -> Option<Label>
        requires { ready self.now }
        ensures { label_place result ≡ parent_label Self.Kind.FieldKind.nest (held self.now) label.place };

    // The pattern that a label stands for.
    fn pattern(&self, label: Label) -> Option<Self::Pattern>
        requires { ready self.now }
        ensures { result ≡ slice_get (held self.now) label.place };
}
