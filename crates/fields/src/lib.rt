// The kinds of field that a rule speaks of, what their patterns mean, and the refusals of every call.
#![tactic(auto)]

pub mod bits;
pub mod checked;
mod checks;
pub mod kind;
pub mod link;
pub mod numbers;
pub mod perfield;
pub mod place;
pub mod prefix;
pub mod prefixes;
pub mod refusal;
pub mod sides;
