// The table of the standing rules.
#![tactic(auto)]

mod changes;
pub mod table;
