// Screens: sets of keys that may say yes to more keys than were added, never to fewer.
#![tactic(auto)]

pub mod bloom;
pub mod open;
mod places;
pub mod screen;
