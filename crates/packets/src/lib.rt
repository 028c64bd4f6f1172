// IPv4 packets (RFC 791): the header that a classifier is asked, and what follows it.
#![tactic(auto)]

pub mod header;
mod layout;
pub mod packet;
pub mod reading;
