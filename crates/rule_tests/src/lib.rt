// Tests on worked examples: kinds, levels, and sheets.
#![tactic(auto)]

#[cfg(test)]
mod kinds;
#[cfg(test)]
mod own_kind;
#[cfg(test)]
mod reading;
#[cfg(test)]
mod writing;
