// A packet as it was read.
ghost use Rattle.std.specs.Prelude.{◌≡◌};
ghost use Rattle.packets.specs.Packets.{follows_at};
ghost use Rattle.packets.specs.Layouts.{with_ports};

use crate::header::Header;

const TCP: u8 = 6;

const UDP: u8 = 17;

// What stands after the IP header.
#[derive(Clone, Copy, PartialEq, Eq, Debug)]
pub enum Follows {
    Tcp,
    Udp,
    // A fragment that is not the first, of any protocol.
    LaterFragment,
    Other,
}

impl Follows {
    // What follows in a packet of a fragment offset and a protocol.
    pub(crate) fn new(offset: u16, protocol: u8) -> Follows
        ensures { result ≡ follows_at offset protocol }
    {
        match (offset, protocol) {
            (0, TCP) => Follows::Tcp,
            (0, UDP) => Follows::Udp,
            (0, _) => Follows::Other,
            _ => Follows::LaterFragment,
        }
    }

    // Whether it begins with the ports.
    pub(crate) fn has_ports(self) -> bool
        ensures { result ≡ with_ports self }
    {
        matches!(self, Follows::Tcp | Follows::Udp)
    }
}

// What follows the IP header, up to the packet's total length: the bytes, and the place in the packet where they begin.
#[derive(Clone, Copy)]
pub struct Rest<'a> {
    pub follows: Follows,
    pub part: &'a [u8],
    pub place: usize,
}

#[derive(Clone, Copy)]
pub struct Packet<'a> {
    pub header: Header,
    pub rest: Rest<'a>,
}
