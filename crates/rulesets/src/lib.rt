// Sets of rule numbers.
#![tactic(auto)]

mod ops;
pub mod ruleset;
