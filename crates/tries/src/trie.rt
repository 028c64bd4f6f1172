// A finder that goes down by the bits.
ghost use Rattle.std.specs.Prelude.{◌≡◌, ◌≤◌, [], IfOk, vec_capacity};
ghost use Rattle.finders.specs.Finding.{label_place, known as known_label};
ghost use Rattle.tries.specs.Ready.{Ready};

use crate::nodes::Nodes;
use crate::spelled::Spelled;
use fields::numbers::Label;
use finders::finder::{Finder, ROOM};
use std::alloc::{AllocError, Global};

#[derive(Drop)]
pub struct Trie<K: Spelled> {
    patterns: Vec<K::Pattern>,
    nodes: Nodes,
    ghost reserved: { 257 ≤ vec_capacity patterns },
    pub ghost ready: { Ready K.Spelled.spelling nodes.list.items patterns.items },
}

impl<K: Spelled> Trie<K> {
    // A trie that holds nothing yet.
    pub fn new(heap: Global) -> Result<Trie<K>, AllocError>
        ensures { IfOk result (λ t. t.patterns.items ≡ []) }
    {
        let patterns = Vec::with_capacity(heap, ROOM)?;
        let nodes = Nodes::new(heap)?;
        Ok(Trie { patterns, nodes })
    }

    // The label of a pattern that is held.
    #[tactic(auto, using(crate::proofs::Finds::known_is))]
    fn known(&self, p: K::Pattern) -> Option<Label>
        ensures { label_place result ≡ known_label K.Spelled.spelling.nest self.now.patterns.items p }
    {
        self.nodes.find(K::path(p))
    }
}

impl<K: Spelled> Finder for Trie<K> {
    type Pattern = K::Pattern;

    type Value = K::Value;

    type Kind = K::Kind;

    ghost ready = { λ _. Unit {0} };

    ghost held = { λ t. t.patterns.items };

    ghost room = { λ _. 257 };

    fn clear(&mut self) {
        self.patterns.clear();
        self.nodes.clear();
    }

    fn take(&mut self, p: K::Pattern) -> Option<Label> {
        if let Some(label) = self.known(p) {
            return Some(label);
        }
        let count = self.patterns.len();
        if count >= ROOM {
            return None;
        }
        let label = Label {
            place: count as u16,
        };
        self.nodes.insert(K::path(p), label);
        self.patterns.push_reserved(p);
        Some(label)
    }

    #[tactic(auto, using(crate::proofs::Finds::best_is))]
    fn best(&self, v: K::Value) -> Option<Label> {
        self.nodes.deepest(K::spell(v))
    }

    // What lies around a pattern has fewer of its bits.
    #[tactic(auto, using(crate::proofs::Finds::parent_above, crate::proofs::Finds::parent_none))]
    fn parent(&self, label: Label) -> Option<Label> {
        let p = self.pattern(label)?;
        let above = K::path(p).shorter()?;
        self.nodes.deepest(above)
    }

    fn pattern(&self, label: Label) -> Option<K::Pattern> {
        self.patterns.get(label.place as usize).copied()
    }
}
