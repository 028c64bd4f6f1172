// Key tables: maps from keys to entry numbers that count how often they are asked.
#![tactic(auto)]

pub mod buckets;
pub mod key;
pub mod table;
pub mod tally;
