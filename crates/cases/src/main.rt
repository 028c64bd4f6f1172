// Lists many sheets and packets, most of them damaged. A file of cases has for each its length in four bytes, the highest first, and then its
// bytes.
#![tactic(auto)]

ghost use Rattle.std.specs.Prelude.{◌<◌, length, IfSome};

use files::print_text;
use listing::sheet_text;
use packetlisting::packet_text;
use std::alloc::{AllocError, Global};
use std::fs;

// The first case, and what follows it, where its length and its bytes are there.
fn split_case(bytes: &[u8]) -> Option<(&[u8], &[u8])>
    ensures { IfSome result (λ parts. length parts.1.now < length bytes.now) }
{
    let (length, rest) = bytes.split_first_chunk::<4>()?;
    rest.split_at_checked(u32::from_be_bytes(*length) as usize)
}

// Prints what a function makes of every case of a file.
fn run<F: Fn(Global, &[u8]) -> Result<String, AllocError>>(
    rt: &HostRuntime,
    path: &str,
    text_of: F,
) -> anyhow::Result<()>
    requires { F.IsAlwaysCallable text_of }
{
    let all = fs::read(rt, path)?;
    let bytes = all.as_slice();
    let mut rest = bytes;
    while let Some((case, others)) = split_case(rest) {
        print_text(rt, text_of(rt.alloc(), case))?;
        rest = others;
    }
    let at = bytes.len() - rest.len();
    println!(rt; "read up to byte {at}")?;
    Ok(())
}

fn main(rt: HostRuntime) -> anyhow::Result<()> {
    run(&rt, "sheets.bin", sheet_text)?;
    run(&rt, "packets.bin", packet_text)
}
