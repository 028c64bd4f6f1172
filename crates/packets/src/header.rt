// What a packet has in the five fields: the header values of their kinds.
use fields::sides::Sides;

#[derive(Clone, Copy, PartialEq, Eq, Debug)]
pub struct Header {
    pub addresses: Sides<u32>,
    pub ports: Sides<u16>,
    pub protocol: u8,
}
