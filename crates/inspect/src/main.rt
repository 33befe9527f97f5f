#![tactic(auto)]

use anyhow::ensure;
use inspection::{MOST_BYTES, inspect_sheet};
use std::io::Read;

// Reads standard input to its end and prints the sheet in it. A refusal is printed too, and ends with status 1.
fn main(rt: HostRuntime) -> anyhow::Result<()> {
    let mut bytes = Vec::new(rt.alloc());
    rt.stdin()
        .take(MOST_BYTES as u64 + 1)
        .read_to_end(&mut bytes)?;
    let printed = inspect_sheet(rt.alloc(), &bytes)?;
    rt.print(printed.text.as_str())?;
    ensure!(printed.refused.is_none(), "refused");
    Ok(())
}
