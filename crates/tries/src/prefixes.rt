// Prefixes by their bits, and the tries for them.
ghost use Rattle.std.specs.Prelude.{refl};
ghost use Rattle.tries.specs.PrefixSpelling.{prefix_spelling};

use crate::path::BitPath;
use crate::spelled::Spelled;
use crate::trie::Trie;
use fields::bits::Bits;
use fields::kind::FieldKind;
use fields::prefix::Prefix;
use fields::prefixes::{Address, Port, Prefixes};

pub type AddressTrie = Trie<Address>;

pub type PortTrie = Trie<Port>;

impl<V: Bits + Copy, const W: u8, const S: u8> Spelled for Prefixes<V, W, S> {
    type Pattern = Prefix<W, S>;

    type Value = V;

    type Kind = Prefixes<V, W, S>;

    ghost spelling = { prefix_spelling W S V.Bits.numbering };

    #[tactic(auto, unfolding(crate::specs::Spelling::bits, crate::specs::PrefixSpelling::path))]
    fn path(p: Prefix<W, S>) -> BitPath {
        BitPath {
            number: Prefixes::<V, W, S>::number(p),
            width: W,
            length: Prefixes::<V, W, S>::length(p).bits,
        }
    }

    #[tactic(auto, unfolding(crate::specs::Spelling::bits, crate::specs::PrefixSpelling::spell))]
    fn spell(v: V) -> BitPath {
        BitPath {
            number: v.to_number(),
            width: W,
            length: W.min(32),
        }
    }

    ghost meaning = { refl };
}
