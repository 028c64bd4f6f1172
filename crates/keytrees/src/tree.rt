// A tree of nodes, each with the number that leads to it from its parent.
ghost use Rattle.std.specs.Prelude.{◌≡◌, ◌+◌, ◌<◌, ◌≤◌, [], ◌∷◌, length, is_some, IfSome, IfOk, Some, None, vec_capacity, slice_index_or, slice_set};
ghost use Rattle.keytrees.specs.Nodes.{no_node, with_entry, child_of, end_of, held, Grown, Kept};

use fields::link::Link;
use std::alloc::{AllocError, Global};

// Six nodes for each of 2,048 keys, and the root.
const NODES: usize = 12289;

// Nodes name one another by their places.
#[derive(Clone, Copy, Default)]
struct Node {
    // None at the root. The calls only write it: what they promise speaks of it.
    parent: Link,
    number: u16,
    // The newest child, and the next older child of the same parent.
    first: Link,
    next: Link,
    entry: Option<u16>,
}

// The root stands at place 0. All nodes lie in one vector, since no call but `new` allocates.
#[derive(Drop)]
pub struct Tree {
    nodes: Vec<Node>,
    ghost reserved: { 12289 ≤ vec_capacity nodes },
    pub ghost grown: { Grown nodes.items },
}

impl Tree {
    // A tree with no more than the root; it takes all memory that it ever uses.
    pub fn new(heap: Global) -> Result<Self, AllocError>
        ensures { IfOk result (λ t. t.nodes.items ≡ no_node ∷ []) }
    {
        let mut nodes = Vec::with_capacity(heap, NODES)?;
        nodes.push_reserved(Node::default());
        Ok(Tree { nodes })
    }

    pub fn clear(&mut self)
        ensures { self.new.nodes.items ≡ no_node ∷ [] }
    {
        self.nodes.clear();
        self.nodes.push_reserved(Node::default());
    }

    // The child of a node for a number.
    // That a place lies in the list is asked by clauses: it ties an argument to a list that grows, which no type holds while the list is borrowed.
    fn child(&self, parent: usize, number: u16) -> Option<usize>
        requires { parent < length self.now.nodes.items }
        ensures child { result ≡ child_of self.now.nodes.items parent number }
        ensures within { IfSome result (λ c. c < length self.now.nodes.items) }
    {
        let mut link = self.nodes[parent].first.place();
        while let Some(place) = link {
            let place = usize::from(place);
            let node = &self.nodes[place];
            if node.number == number {
                return Some(place);
            }
            link = node.next.place();
        }
        None
    }

    // Adds a child to a node.
    fn add(&mut self, parent: usize, number: u16) -> usize
        requires parent { parent < length self.old.nodes.items }
        requires new { child_of self.old.nodes.items parent number ≡ None }
        requires room { length self.old.nodes.items < 12289 }
        ensures child { child_of self.new.nodes.items parent number ≡ Some result }
        ensures within { result < length self.new.nodes.items }
        ensures kept { Kept self.old.nodes.items self.new.nodes.items }
        ensures few { length self.new.nodes.items ≤ length self.old.nodes.items + 1 }
    {
        let place = self.nodes.len();
        let node = &mut self.nodes[parent];
        let next = node.first;
        node.first = Link::to(place as u16);
        self.nodes.push_reserved(Node {
            parent: Link::to(parent as u16),
            number,
            next,
            ..Node::default()
        });
        place
    }

    // The child of a node for a number, added where there is none.
    fn branch(&mut self, parent: usize, number: u16) -> usize
        requires parent { parent < length self.old.nodes.items }
        requires room { length self.old.nodes.items < 12289 }
        ensures child { child_of self.new.nodes.items parent number ≡ Some result }
        ensures within { result < length self.new.nodes.items }
        ensures kept { Kept self.old.nodes.items self.new.nodes.items }
        ensures few { length self.new.nodes.items ≤ length self.old.nodes.items + 1 }
    {
        match self.child(parent, number) {
            Some(child) => child,
            None => self.add(parent, number),
        }
    }

    // The node at the end of a way from the root.
    fn end(&self, way: &[u16]) -> Option<usize>
        ensures end { result ≡ end_of self.now.nodes.items 0 way.now }
        ensures within { IfSome result (λ n. n < length self.now.nodes.items) }
    {
        let mut node = 0;
        for number in way {
            node = self.child(node, *number)?;
        }
        Some(node)
    }

    // What is stored at the end of a way.
    #[tactic(auto, unfolding(crate::specs::Nodes::held))]
    pub fn entry(&self, way: &[u16]) -> Option<u16>
        ensures { result ≡ held self.now.nodes.items 0 way.now }
    {
        let node = self.end(way)?;
        self.nodes[node].entry
    }

    // The node at the end of a way where something is stored.
    #[tactic(auto, unfolding(crate::specs::Nodes::held))]
    pub fn holder(&self, way: &[u16]) -> Option<usize>
        ensures holds { is_some result ≡ is_some (held self.now.nodes.items 0 way.now) }
        ensures end { IfSome result (λ n. (end_of self.now.nodes.items 0 way.now ≡ Some n) × (n < length self.now.nodes.items)) }
    {
        self.end(way)
            .filter(|node| self.nodes[*node].entry.is_some())
    }

    // The node at the end of a way, with all that lacks on the way added.
    pub fn grow(&mut self, way: &[u16]) -> usize
        requires { length self.old.nodes.items + length way.now ≤ 12289 }
        ensures end { end_of self.new.nodes.items 0 way.now ≡ Some result }
        ensures within { result < length self.new.nodes.items }
        ensures kept { Kept self.old.nodes.items self.new.nodes.items }
        ensures few { length self.new.nodes.items ≤ length self.old.nodes.items + length way.now }
    {
        let mut node = 0;
        for number in way {
            node = self.branch(node, *number);
        }
        node
    }

    // Stores an entry at a node.
    pub fn set_entry(&mut self, node: usize, entry: u16)
        requires { node < length self.old.nodes.items }
        ensures { self.new.nodes.items ≡ slice_set self.old.nodes.items node (with_entry (slice_index_or self.old.nodes.items node no_node) entry) }
    {
        self.nodes[node].entry = Some(entry);
    }
}
