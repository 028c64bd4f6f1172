// Headers into the bytes of a block. A header is an array written out, of functions for its parts: copied into zeros it took 1.8 times as long.
ghost use Rattle.std.specs.Prelude.{◌≡◌, ◌+◌, ◌*◌, ◌≤◌, ◌++◌, length, drop};
ghost use Rattle.blocks.specs.Blocks.{two_bytes, four_bytes, header_bytes, block_bytes};
ghost use Rattle.octets.specs.Output.{put_at};

use crate::HEADER_BYTES;
use packets::header::Header;

// The bytes of an address, the highest first.
fn address_bytes(address: u32) -> [u8; 4]
    ensures { result ≡ four_bytes address }
{
    address.to_be_bytes()
}

// The bytes of a port, the highest first.
fn port_bytes(port: u16) -> [u8; 2]
    ensures { result ≡ two_bytes port }
{
    port.to_be_bytes()
}

// The bytes of a header: both addresses, both ports, the protocol, three bytes 0.
fn bytes_of_header(header: Header) -> [u8; HEADER_BYTES]
    ensures { result ≡ header_bytes header }
{
    let [s0, s1, s2, s3] = address_bytes(header.addresses.source);
    let [d0, d1, d2, d3] = address_bytes(header.addresses.destination);
    let [p0, p1] = port_bytes(header.ports.source);
    let [q0, q1] = port_bytes(header.ports.destination);
    [
        s0,
        s1,
        s2,
        s3,
        d0,
        d1,
        d2,
        d3,
        p0,
        p1,
        q0,
        q1,
        header.protocol,
        0,
        0,
        0,
    ]
}

// Writes the bytes of a header at a place of the output.
fn put_header(out: &mut [u8], place: usize, header: Header)
    requires { place + 16 ≤ length out.old }
    ensures { out.new ≡ put_at place (header_bytes header) out.old }
{
    out[place..place + HEADER_BYTES].copy_from_slice(&bytes_of_header(header));
}

// Writes the block of some headers at the front of the output.
pub(crate) fn put_block(out: &mut [u8], headers: &[Header])
    requires { 16 * length headers.now ≤ length out.old }
    ensures { out.new ≡ block_bytes headers.now ++ drop (16 * length headers.now) out.old }
{
    for (i, header) in headers.iter().enumerate() {
        put_header(out, HEADER_BYTES * i, *header);
    }
}
