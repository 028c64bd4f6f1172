// The nodes of a trie.
ghost use Rattle.std.specs.Prelude.{◌≡◌, ◌+◌, ◌<◌, ◌≤◌, Bool, List, [], ◌∷◌, ◌++◌, length, IfOk, Some, None, vec_len, vec_capacity, ◌≢◌};
ghost use Rattle.tries.specs.Nodes.{no_node, kid, tag, grown, marked, look, deepest as deepest_label, Leads, Tree};

use crate::node::Node;
use crate::path::BitPath;
use fields::link::NOWHERE;
use fields::numbers::Label;
use finders::finder::ROOM;
use std::alloc::{AllocError, Global};

// The root, and 32 nodes for each pattern.
const MOST: usize = 1 + 32 * ROOM;

// A node with nothing further on and no label. A constant: with `Node::default()` the proof that a grown list is a tree did not close.
const BARE: Node = Node {
    zero: NOWHERE,
    one: NOWHERE,
    label: None,
};

#[derive(Drop)]
pub struct Nodes {
    // The root stands first. No call but `new` allocates, so a node names others by their places in one list.
    pub(crate) list: Vec<Node>,
    ghost reserved: { 8225 ≤ vec_capacity list },
    pub ghost tree: { Tree list.items },
}

impl Nodes {
    ghost use Rattle.tries.specs.Spelling.{bits};

    // The root alone.
    #[tactic(auto, using(crate::proofs::Grows::tree_root))]
    pub(crate) fn new(heap: Global) -> Result<Nodes, AllocError>
        ensures { IfOk result (λ n. n.list.items ≡ no_node ∷ []) }
    {
        let mut list = Vec::with_capacity(heap, MOST)?;
        list.push_reserved(BARE);
        Ok(Nodes { list })
    }

    // Leaves the root alone.
    #[tactic(auto, using(crate::proofs::Grows::tree_root))]
    pub(crate) fn clear(&mut self)
        ensures { self.new.list.items ≡ no_node ∷ [] }
    {
        self.list.clear();
        self.list.push_reserved(BARE);
    }

    // The place one bit further on.
    // That a place lies in the list is asked by clauses: it ties an argument to a list that grows, which no type holds while the list is borrowed.
    #[tactic(auto, unfolding(crate::specs::Nodes::kid))]
    fn next(&self, at: u16, bit: bool) -> Option<u16>
        requires { at < vec_len self.now.list }
        ensures { result ≡ kid self.now.list.items at bit }
    {
        let node = &self.list[at as usize];
        let link = if bit { node.one } else { node.zero };
        link.place()
    }

    // The label of a node.
    #[tactic(auto, unfolding(crate::specs::Nodes::tag))]
    fn label(&self, at: u16) -> Option<Label>
        requires { at < vec_len self.now.list }
        ensures { result ≡ tag self.now.list.items at }
    {
        self.list[at as usize].label
    }

    // The label of a path.
    pub(crate) fn find(&self, path: BitPath) -> Option<Label>
        ensures { result ≡ look self.now.list.items 0 (bits path) }
    {
        let mut at = 0;
        for bit in path {
            at = self.next(at, bit)?;
        }
        self.label(at)
    }

    // The last label on the way along a path.
    #[tactic(auto, using(crate::proofs::Deep::deep_steps))]
    pub(crate) fn deepest(&self, path: BitPath) -> Option<Label>
        ensures { result ≡ deepest_label self.now.list.items 0 (bits path) }
    {
        let mut at = 0;
        let mut found = self.label(at);
        for bit in path {
            let Some(next) = self.next(at, bit) else {
                return found;
            };
            at = next;
            found = self.label(at).or(found);
        }
        found
    }

    // A new node, one bit further on than the one at a place.
    fn grow(&mut self, at: u16, bit: bool) -> u16
        requires here { at < vec_len self.old.list }
        requires nothing { kid self.old.list.items at bit ≡ None }
        requires room { vec_len self.old.list < 8225 }
        ensures nodes { self.new.list.items ≡ grown self.old.list.items at bit }
        ensures place { result ≡ vec_len self.old.list }
    {
        let new = self.list.len() as u16;
        self.list.push_reserved(BARE);
        self.list[at as usize].turn(bit, new);
        new
    }

    // Gives a node its label.
    fn mark(&mut self, at: u16, label: Label)
        requires { at < vec_len self.old.list }
        ensures { self.new.list.items ≡ marked self.old.list.items at label }
    {
        self.list[at as usize].label = Some(label);
    }

    // One bit further on, by a new node where there is none.
    #[tactic(auto, using(crate::proofs::Grows::leads_push, crate::proofs::Grows::grown_labels, crate::proofs::Grows::grown_leads))]
    fn further(&mut self, at: u16, bit: bool) -> u16
        requires here { at < vec_len self.old.list }
        requires room { vec_len self.old.list < 8225 }
        ensures leads { (bs : List Bool) → Leads self.old.list.items 0 bs at → Leads self.new.list.items 0 (bs ++ bit ∷ []) result }
        ensures here { result < vec_len self.new.list }
        ensures labels { (bs : List Bool) → look self.new.list.items 0 bs ≡ look self.old.list.items 0 bs }
        ensures long { vec_len self.new.list ≤ vec_len self.old.list + 1 }
    {
        match self.next(at, bit) {
            Some(next) => next,
            None => self.grow(at, bit),
        }
    }

    // The node of a path, with what leads to it.
    fn reach(&mut self, path: BitPath) -> u16
        requires { vec_len self.old.list + length (bits path) ≤ 8225 }
        ensures leads { Leads self.new.list.items 0 (bits path) result }
        ensures here { result < vec_len self.new.list }
        ensures labels { (bs : List Bool) → look self.new.list.items 0 bs ≡ look self.old.list.items 0 bs }
        ensures long { vec_len self.new.list ≤ vec_len self.old.list + length (bits path) }
    {
        let mut at = 0;
        for bit in path {
            at = self.further(at, bit);
        }
        at
    }

    // Gives a path its label; the others keep theirs.
    #[tactic(auto, using(crate::proofs::Grows::marked_here, crate::proofs::Grows::marked_elsewhere))]
    pub(crate) fn insert(&mut self, path: BitPath, label: Label)
        requires { vec_len self.old.list + length (bits path) ≤ 8225 }
        ensures here { look self.new.list.items 0 (bits path) ≡ Some label }
        ensures others { (bs : List Bool) → (bs ≢ bits path) → look self.new.list.items 0 bs ≡ look self.old.list.items 0 bs }
        ensures long { vec_len self.new.list ≤ vec_len self.old.list + length (bits path) }
    {
        let at = self.reach(path);
        self.mark(at, label);
    }
}
