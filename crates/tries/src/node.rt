// A node of a trie.
ghost use Rattle.std.specs.Prelude.{◌≡◌, ◌<◌};

use fields::link::Link;
use fields::numbers::Label;

#[derive(Clone, Copy)]
pub struct Node {
    // The places of the nodes one bit further on.
    pub(crate) zero: Link,
    pub(crate) one: Link,
    pub(crate) label: Option<Label>,
}

impl Node {
    ghost use Rattle.tries.specs.Nodes.{turned};

    // Names the node one bit further on.
    pub(crate) fn turn(&mut self, bit: bool, next: u16)
        requires { next < 65535 }
        ensures { self.new ≡ turned self.old bit next }
    {
        if bit {
            self.one = Link::to(next);
        } else {
            self.zero = Link::to(next);
        }
    }
}
