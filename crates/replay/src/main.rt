#![tactic(auto)]

use anyhow::{Context, ensure};
use replaying::log::{MOST_LOG_BYTES, Trouble};
use replaying::replay_log;
use sheetfile::MOST_BYTES;
use std::io::Read;
use std::{env, fs};
use texts::Printed;

// Replays the log on standard input over the sheet file that the first argument names.
fn replayed(rt: &HostRuntime) -> anyhow::Result<Printed<Trouble>> {
    let path = env::args(rt)?
        .nth(1)
        .context("the name of a sheet file is wanted")?;
    let mut sheet = Vec::new(rt.alloc());
    fs::open(rt, path.as_str())?
        .take(MOST_BYTES as u64 + 1)
        .read_to_end(&mut sheet)?;
    let mut log = Vec::new(rt.alloc());
    rt.stdin()
        .take(MOST_LOG_BYTES as u64 + 1)
        .read_to_end(&mut log)?;
    Ok(replay_log(rt.alloc(), &sheet, &log)?)
}

// Prints each call of the log with its answer. A line that is not understood or a refused file is printed too, and ends
// with status 1.
fn main(rt: HostRuntime) -> anyhow::Result<()> {
    let printed = replayed(&rt)?;
    rt.print(printed.text.as_str())?;
    ensure!(printed.refused.is_none(), "nothing was replayed");
    Ok(())
}
