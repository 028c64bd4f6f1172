// Nested levels and nearest containers, for every kind of field, and the length maps of prefixes.
#![tactic(auto)]

pub mod maps;
pub mod nesting;
