// From the bytes of a packet to what a program prints of it.
#![tactic(auto)]

ghost use Rattle.std.specs.Prelude.{◌≡◌, length, IfOk, Some, string_bytes};
ghost use Rattle.packets.specs.Packets.{shown};
ghost use Rattle.packetlisting.specs.PacketText.{header_text, name, rest_text, shown_text, packet_text};

use fields::refusal::Refusal;
use packets::header::Header;
use packets::packet::{Follows, Packet, Rest};
use packets::reading::read_packet;
use std::alloc::{AllocError, Global};
use std::fmt;
use texts::AddressText;
pub use texts::MOST_BYTES;
use texts::lines::line_of;

#[derive(Clone, Copy)]
pub struct HeaderText(pub Header);

impl fmt::Display for HeaderText {
    ghost output = { λ t. Some (header_text t.0) };

    fn fmt<W: fmt::Write>(&self, f: &mut fmt::Formatter<W>) -> fmt::Result {
        let header = self.0;
        let source = AddressText(header.addresses.source);
        let destination = AddressText(header.addresses.destination);
        let source_port = header.ports.source;
        let destination_port = header.ports.destination;
        let protocol = header.protocol;
        write!(
            f,
            "{source} {destination} {source_port} {destination_port} {protocol}"
        )
    }
}

// What follows the header, how many bytes, and where they begin.
#[derive(Clone, Copy)]
pub struct RestText<'a>(pub Rest<'a>);

impl fmt::Display for RestText<'_> {
    ghost output = { λ t. Some (rest_text (name t.0.follows) (length t.0.part.now) t.0.place) };

    fn fmt<W: fmt::Write>(&self, f: &mut fmt::Formatter<W>) -> fmt::Result {
        let name = match self.0.follows {
            Follows::Tcp => "tcp",
            Follows::Udp => "udp",
            Follows::LaterFragment => "later fragment",
            Follows::Other => "other",
        };
        let count = self.0.part.len();
        let place = self.0.place;
        write!(f, "{name}, {count} bytes at {place}")
    }
}

// The header of a packet and what follows it, a line each.
fn lines_of_packet(heap: Global, packet: Packet<'_>) -> Result<String, AllocError>
    ensures text { IfOk result (λ t. string_bytes t ≡ shown_text (shown packet.entry)) }
{
    let header = HeaderText(packet.header);
    let rest = RestText(packet.rest);
    line_of(heap, format_args!("{header}\n{rest}"))
}

// What is printed of the bytes of a file that should be one packet.
pub fn packet_text(heap: Global, bytes: &[u8]) -> Result<String, AllocError>
    ensures text { IfOk result (λ t. string_bytes t ≡ packet_text bytes.now) }
{
    if bytes.len() > MOST_BYTES {
        return line_of(heap, Refusal::NoRoom);
    }
    match read_packet(bytes) {
        Ok(packet) => lines_of_packet(heap, packet),
        Err(refusal) => line_of(heap, refusal),
    }
}
