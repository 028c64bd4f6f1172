// From the bytes of a file to what a program prints.
#![tactic(auto)]

ghost use Rattle.std.specs.Prelude.{◌≡◌, IfOk, string_bytes};
ghost use Rattle.listing.specs.Listing.{sheet_text};

use fields::refusal::Refusal;
use reader::sheet::{Rules, fill_rules};
use sheets::fault::Fault;
use std::alloc::{AllocError, Global};
pub use texts::MOST_BYTES;
use texts::lines::{fault_line, rules_lines};

// The rules of a sheet as lines of text, or a line with its fault.
pub fn sheet_text(heap: Global, bytes: &[u8]) -> Result<String, AllocError>
    ensures text { IfOk result (λ t. string_bytes t ≡ sheet_text bytes.now) }
{
    if bytes.len() > MOST_BYTES {
        return fault_line(heap, Fault::at(Refusal::NoRoom, 0));
    }
    let mut rules = Rules::new();
    match fill_rules(bytes, &mut rules) {
        Ok(()) => rules_lines(heap, rules.as_slice()),
        Err(fault) => fault_line(heap, fault),
    }
}
