// What the benchmark calls: an export makes a support, fills it, asks it, and answers a checksum of the answers.
#![tactic(auto)]

mod checksum;
pub mod exports;
mod finding;
mod lookup;
pub mod rows;
mod screening;
