// Files that programs read.
#![tactic(auto)]

ghost use Rattle.std.specs.Prelude.{◌≤◌, IfOk, vec_len};

use fields::refusal::Refusal;
use std::fs::File;
use std::io;
use std::io::{ErrorKind, Read};
use texts::MOST_BYTES;

// A byte more than any file that is looked into has.
const ENOUGH: usize = MOST_BYTES + 1;

// What a file holds, up to the first byte too many; a file that is missing counts as empty.
pub fn file_bytes(rt: &HostRuntime, path: &str) -> io::Result<Vec<u8>>
    ensures { IfOk result (λ v. vec_len v ≤ 65537) }
{
    let mut bytes = Vec::new(rt.alloc());
    let file = match File::open(rt, path) {
        Err(e) if e.kind() == ErrorKind::NotFound => return Ok(bytes),
        opened => opened?,
    };
    file.take(ENOUGH as u64).read_to_end(&mut bytes)?;
    bytes.truncate(ENOUGH);
    Ok(bytes)
}

// Prints a text, or the refusal that came in its place.
pub fn print_text<E: Into<Refusal>>(rt: &HostRuntime, text: Result<String, E>) -> io::Result<()> {
    match text {
        Ok(text) => rt.print(text.as_str()),
        Err(why) => {
            let refusal: Refusal = why.into();
            println!(rt; "{refusal}")
        }
    }
}
