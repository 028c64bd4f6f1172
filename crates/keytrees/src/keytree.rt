// A key table that is a tree: the way of a key from the root is its numbers.
ghost use Rattle.std.specs.Prelude.{◌≡◌, ◌+◌, ◌*◌, ◌≤◌, IfOk, length, None};
ghost use Rattle.keytables.specs.declared.key.Key.{Key};
ghost use Rattle.keytrees.specs.Nodes.{stored};

use crate::tree::Tree;
use keytables::key::Key;
use keytables::table::{Full, KeyTable};
use keytables::tally::Tally;
use std::alloc::{AllocError, Global};

const KEYS: u16 = 2048;

// Six nodes at most for each key, and the root.
#[derive(Drop)]
pub struct KeyTree {
    tree: Tree,
    count: u16,
    tally: Tally,
    pub ghost few: { count ≤ 2048 },
    pub ghost close: { length tree.nodes.items ≤ 6 * count + 1 },
}

impl KeyTree {
    // An empty table; it takes all memory that it ever uses.
    pub fn new(heap: Global) -> Result<Self, AllocError>
        ensures { IfOk result (λ t. ((q : Key) → stored t.tree.nodes.items q ≡ None) × (t.count ≡ 0) × (t.tally.asked ≡ 0)) }
    {
        let tree = Tree::new(heap)?;
        Ok(KeyTree {
            tree,
            count: 0,
            tally: Tally { asked: 0 },
        })
    }
}

impl KeyTable for KeyTree {
    ghost ready = { λ _. Unit {0} };

    ghost map = { λ t. stored t.tree.nodes.items };

    ghost count = { λ t. t.count };

    ghost room = { λ _. 2048 };

    ghost tally = { λ t. t.tally.asked };

    fn clear(&mut self) {
        self.tree.clear();
        self.count = 0;
    }

    #[tactic(auto, using(crate::proofs::Stores::stored_set))]
    fn put(&mut self, key: Key, entry: u16) -> Result<(), Full> {
        let way = key.numbers();
        if let Some(node) = self.tree.holder(&way) {
            self.tree.set_entry(node, entry);
            return Ok(());
        }
        if self.count >= KEYS {
            return Err(Full);
        }
        let node = self.tree.grow(&way);
        self.tree.set_entry(node, entry);
        self.count += 1;
        Ok(())
    }

    fn find(&mut self, key: Key) -> Option<u16> {
        self.tally.add();
        self.tree.entry(&key.numbers())
    }

    fn start(&mut self) {
        self.tally.asked = 0;
    }

    fn asked(&self) -> u16 {
        self.tally.asked
    }
}
