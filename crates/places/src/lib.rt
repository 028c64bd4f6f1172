// The five places of a rule, each with a kind and a finder of its own.
#![tactic(auto)]

pub mod five;
pub mod front;
pub mod located;
pub mod spot;
