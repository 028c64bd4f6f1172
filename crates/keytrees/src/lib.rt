// A key table that is a tree over the numbers of a key.
#![tactic(auto)]

pub mod keytree;
mod tree;
