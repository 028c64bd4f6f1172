// A bit trie: a finder for patterns that are the first bits of values.
#![tactic(auto)]

pub mod node;
pub mod nodes;
pub mod path;
pub mod prefixes;
pub mod spelled;
pub mod trie;
