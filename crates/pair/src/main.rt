#![tactic(auto)]

use anyhow::ensure;
use pairing::{MOST_TEXT, PrintedPairs, print_pairs};
use sheetfile::MOST_BYTES;
use std::io::{Read, Write};

// Reads a sheet file from standard input to its end, pairs its carriers and jobs, and prints the listing. A refusal is
// printed too, and ends with status 1.
fn main(rt: HostRuntime) -> anyhow::Result<()> {
    let mut sheet = Vec::new(rt.alloc());
    rt.stdin()
        .take(MOST_BYTES as u64 + 1)
        .read_to_end(&mut sheet)?;
    let mut text = [0u8; MOST_TEXT];
    let PrintedPairs { len, refusal } = print_pairs(&sheet, &mut text);
    rt.stdout().write_all(&text[0..len])?;
    ensure!(refusal.is_none(), "refused");
    Ok(())
}
