// Lists the rule sheet `rules.bin` of the current folder, or says what is wrong with it.
#![tactic(auto)]

use files::{file_bytes, print_text};
use listing::sheet_text;

fn main(rt: HostRuntime) -> anyhow::Result<()> {
    let bytes = file_bytes(&rt, "rules.bin")?;
    print_text(&rt, sheet_text(rt.alloc(), bytes.as_slice()))?;
    Ok(())
}
