// Rule sheets from bytes: a word reader, a rule reader and a sheet reader, each handing its fault on.
#![tactic(auto)]

mod rules;
pub mod sheet;
mod words;
