// Headers from the bytes of a block.
ghost use Rattle.std.specs.Prelude.{◌≡◌, ◌≤◌, ◌++◌, map, length, drop};
ghost use Rattle.std.specs.List.{list_any};
ghost use Rattle.blocks.specs.Blocks.{header_at, spoiled};

use crate::HEADER_BYTES;
use fields::sides::Sides;
use octets::bytes_at;
use packets::header::Header;

fn header_of(bytes: &[u8; HEADER_BYTES]) -> Header
    ensures { result ≡ header_at bytes.now 0 }
{
    Header {
        addresses: Sides {
            source: u32::from_be_bytes(bytes_at(bytes, 0)),
            destination: u32::from_be_bytes(bytes_at(bytes, 4)),
        },
        ports: Sides {
            source: u16::from_be_bytes(bytes_at(bytes, 8)),
            destination: u16::from_be_bytes(bytes_at(bytes, 10)),
        },
        protocol: bytes[12],
    }
}

// Whether one of the last bytes of a header is not 0.
fn is_spoiled(bytes: &[u8; HEADER_BYTES]) -> bool
    ensures { result ≡ spoiled bytes.now 0 }
{
    !matches!(bytes, [.., 0, 0, 0])
}

// Whether one of the headers has a last byte that is not 0.
pub(crate) fn any_spoiled(block: &[[u8; HEADER_BYTES]]) -> bool
    ensures { result ≡ list_any (λ bs. spoiled bs 0) block.now }
{
    block.iter().any(is_spoiled)
}

// Puts the headers of the block at the front of the list.
pub(crate) fn fill_list(block: &[[u8; HEADER_BYTES]], headers: &mut [Header])
    requires { length block.now ≤ length headers.old }
    ensures { headers.new ≡ map (λ bs. header_at bs 0) block.now ++ drop (length block.now) headers.old }
{
    // By index: of what is written through a `zip` of `iter_mut` a proof knows nothing.
    for (i, bytes) in block.iter().enumerate() {
        headers[i] = header_of(bytes);
    }
}
