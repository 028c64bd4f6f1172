// Finders: what finds the most specific of the patterns that it holds.
#![tactic(auto)]

pub mod finder;
pub mod laws;
pub mod scan;
