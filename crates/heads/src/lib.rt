// The tuples of rules: which are met, which are heads, and which head is nearest.
#![tactic(auto)]

pub mod counted;
pub mod heads;
pub mod measure;
pub mod tuple;
