// Tests on worked examples: packets, header blocks and lines.
#![tactic(auto)]

#[cfg(test)]
mod blocks_there_and_back;
#[cfg(test)]
mod line_bytes;
#[cfg(test)]
mod parts;
#[cfg(test)]
mod printed;
