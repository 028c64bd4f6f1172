// A packet from bytes.
ghost use Rattle.std.specs.Prelude.{◌≡◌, IfOk};
ghost use Rattle.fields.specs.Refusals.{refusal};
ghost use Rattle.packets.specs.Packets.{packet_refusal, packet_shown, shown};

use crate::layout::Layout;
use crate::packet::Packet;
use fields::refusal::Refusal;

// Reads the packet that the bytes begin with. What lies past its total length is ignored, and so is its checksum.
pub fn read_packet(bytes: &[u8]) -> Result<Packet<'_>, Refusal>
    ensures answer { refusal result ≡ packet_refusal bytes.now }
    ensures packet { IfOk result (λ p. shown p ≡ packet_shown bytes.now) }
{
    let layout = Layout::new(bytes)?;
    Ok(Packet {
        header: layout.header(),
        rest: layout.rest(),
    })
}
