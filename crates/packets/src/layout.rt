// Where the parts of a packet are.
ghost use Rattle.std.specs.Prelude.{◌≡◌, IfOk};
ghost use Rattle.fields.specs.Refusals.{refusal};
ghost use Rattle.packets.specs.Layouts.{LaidOut, RestOf};
ghost use Rattle.packets.specs.Packets.{header, packet_refusal};

use crate::header::Header;
use crate::packet::{Follows, Rest};
use fields::refusal::Refusal;
use fields::sides::Sides;
use octets::bytes_at;

// The header without options has so many bytes.
const SHORTEST_HEADER: usize = 20;

// Both ports have so many bytes.
const PORT_BYTES: usize = 4;

// A packet that passed the tests.
#[derive(Clone, Copy)]
pub(crate) struct Layout<'a> {
    bytes: &'a [u8],
    // where the header ends
    start: usize,
    // where the packet ends
    total: usize,
    protocol: u8,
    follows: Follows,
    ghost laid_out: { LaidOut bytes.now start total protocol follows },
}

impl<'a> Layout<'a> {
    // The layout of the packet that the bytes begin with, or why they are none.
    pub(crate) fn new(bytes: &'a [u8]) -> Result<Layout<'a>, Refusal>
        ensures answer { refusal result ≡ packet_refusal bytes.now }
        ensures bytes { IfOk result (λ l. l.bytes.now ≡ bytes.now) }
    {
        if bytes.len() < SHORTEST_HEADER {
            return Err(Refusal::PacketBytes);
        }
        let first = bytes[0];
        if first / 16 != 4 {
            return Err(Refusal::Version);
        }
        let words = first % 16;
        if words < 5 {
            return Err(Refusal::HeaderLength);
        }
        let start = 4 * usize::from(words);
        let total = usize::from(u16::from_be_bytes(bytes_at(bytes, 2)));
        if total < start || bytes.len() < total {
            return Err(Refusal::TotalLength);
        }
        let offset = u16::from_be_bytes(bytes_at(bytes, 6)) % 8192;
        let protocol = bytes[9];
        let follows = Follows::new(offset, protocol);
        if follows.has_ports() && total - start < PORT_BYTES {
            return Err(Refusal::Ports);
        }
        Ok(Layout {
            bytes,
            start,
            total,
            protocol,
            follows,
        })
    }

    // The ports, both 0 in a packet that has none to read.
    fn ports(self) -> Sides<u16>
        ensures { result ≡ (header self.entry.bytes.now).ports }
    {
        if !self.follows.has_ports() {
            return Sides::default();
        }
        Sides {
            source: u16::from_be_bytes(bytes_at(self.bytes, self.start)),
            destination: u16::from_be_bytes(bytes_at(self.bytes, self.start + 2)),
        }
    }

    pub(crate) fn header(self) -> Header
        ensures { result ≡ header self.entry.bytes.now }
    {
        Header {
            addresses: Sides {
                source: u32::from_be_bytes(bytes_at(self.bytes, 12)),
                destination: u32::from_be_bytes(bytes_at(self.bytes, 16)),
            },
            ports: self.ports(),
            protocol: self.protocol,
        }
    }

    // What follows the header.
    pub(crate) fn rest(self) -> Rest<'a>
        ensures { RestOf self.entry.bytes.now result }
    {
        Rest {
            follows: self.follows,
            part: &self.bytes[self.start..self.total],
            place: self.start,
        }
    }
}
