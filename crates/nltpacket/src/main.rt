// Shows the header of the packet in `packet.bin` of the current folder and what follows it, or the refusal.
#![tactic(auto)]

use files::{file_bytes, print_text};
use packetlisting::packet_text;

fn main(rt: HostRuntime) -> anyhow::Result<()> {
    let bytes = file_bytes(&rt, "packet.bin")?;
    print_text(&rt, packet_text(rt.alloc(), bytes.as_slice()))?;
    Ok(())
}
