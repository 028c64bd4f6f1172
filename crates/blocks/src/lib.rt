// Header blocks: headers in bytes, sixteen to each.
#![tactic(auto)]

ghost use Rattle.std.specs.Prelude.{◌≡◌, ◌*◌, ◌/◌, length, IfOk};
ghost use Rattle.fields.specs.Refusals.{refusal};
ghost use Rattle.blocks.specs.Laws.{WrittenIsRead, ReadIsWritten};
ghost use Rattle.blocks.specs.Blocks.{read_refusal, listed, write_refusal, written};

use fields::refusal::Refusal;
use packets::header::Header;

mod reading;
mod writing;

// A header has sixteen bytes.
const HEADER_BYTES: usize = 16;

// Reads a block into a list of headers, and tells how many it has. A refused read leaves the list as it was.
#[tactic(auto, using(crate::proofs::Headers::headers_of_block, crate::proofs::Headers::spoiled_of_block))]
pub fn read_headers(bytes: &[u8], headers: &mut [Header]) -> Result<usize, Refusal>
    ensures answer { refusal result ≡ read_refusal bytes.now (length headers.old) }
    ensures count { IfOk result (λ n. n ≡ length bytes.now / 16) }
    ensures list { headers.new ≡ listed (read_refusal bytes.now (length headers.old)) bytes.now headers.old }
{
    let (block, rest) = bytes.as_chunks::<HEADER_BYTES>();
    if !rest.is_empty() || reading::any_spoiled(block) {
        return Err(Refusal::HeaderBlock);
    }
    if headers.len() < block.len() {
        return Err(Refusal::NoRoom);
    }
    reading::fill_list(block, headers);
    Ok(block.len())
}

// Writes the block of some headers, and tells how many bytes it has. A refused write leaves the output as it was.
pub fn write_headers(headers: &[Header], out: &mut [u8]) -> Result<usize, Refusal>
    ensures answer { refusal result ≡ write_refusal (length headers.now) (length out.old) }
    ensures count { IfOk result (λ n. n ≡ 16 * length headers.now) }
    ensures out { out.new ≡ written (write_refusal (length headers.now) (length out.old)) headers.now out.old }
{
    if out.len() / HEADER_BYTES < headers.len() {
        return Err(Refusal::NoRoom);
    }
    writing::put_block(out, headers);
    Ok(HEADER_BYTES * headers.len())
}

// A written block reads back as the same headers.
pub fn written_is_read()
    ensures { WrittenIsRead }
{}

// An accepted block, written again, has the same bytes.
pub fn read_is_written()
    ensures { ReadIsWritten }
{}
