//! Random small sheets, written as files, through the public call beside a search through all pairings; and damaged files.
#![tactic(auto)]

mod file;
mod listing;
mod promises;
mod trial;

use anyhow::{Context, bail, ensure};
use grids::draws::Draw;
use pairing::list_pairs;
use promises::Hex;
use std::{env, io, str};
use trial::{ROOM, Sums, Trial};

const SHEETS: u32 = 3000;

// Sheets on which three carriers contend for two jobs of the same high worth, so that the budget is spent. They have the numbers behind
// those of the small ones.
const CONTESTED: u32 = 3;

// Prints a file, and what the call answers for it.
fn show_file(rt: &impl Print, name: &str, file: &[u8]) -> io::Result<()> {
    let mut out = [0; ROOM];
    let hex = Hex(file);
    println!(rt; "{name} {hex}")?;
    match list_pairs(file, &mut out) {
        Ok(len) => {
            let listing = out.get(..len).and_then(|text| str::from_utf8(text).ok());
            let text = listing.unwrap_or("no text\n");
            print!(rt; "{text}")
        }
        Err(refusal) => println!(rt; "refused {refusal}"),
    }
}

// Prints the files of a trial, each with its answer, and what the best pairing of the sheet is worth.
fn show(rt: &impl Print, trial: &Trial) -> io::Result<()> {
    let best = trial.grid.best();
    println!(rt; "best pairing {best}")?;
    show_file(rt, "file", &trial.file)?;
    if let Some(damages) = &trial.damages {
        show_file(rt, "changed", &damages.changed)?;
        show_file(rt, "cut", &damages.cut)?;
        show_file(rt, "longer", &damages.longer)?;
    }
    Ok(())
}

// Checks a trial. If a promise does not hold, it prints which, and of which file.
fn try_sheet(rt: &impl Print, sums: &mut Sums, sheet: u32, trial: &Trial) -> anyhow::Result<()> {
    if let Err(failure) = trial.check(sums) {
        println!(rt; "sheet {sheet} {failure}")?;
        bail!(
            "a promise is broken; `pairtrials {sheet}` tries this sheet alone, and prints its files with their answers"
        );
    }
    Ok(())
}

// The number of the sheet that is to be tried alone, if the program was given one.
fn sheet_wanted(rt: &HostRuntime) -> anyhow::Result<Option<u32>> {
    let Some(text) = env::args(rt)?.nth(1) else {
        return Ok(None);
    };
    let number = text
        .parse::<u32>()
        .context("the number of a sheet is wanted")?;
    ensure!(number < SHEETS + CONTESTED, "there is no sheet {number}");
    Ok(Some(number))
}

// Tries the sheets, or the one that is wanted.
fn try_sheets(rt: &HostRuntime, wanted: Option<u32>) -> anyhow::Result<Sums> {
    let mut draw = Draw::new(20261118);
    let mut sums = Sums::default();
    for sheet in 0..SHEETS + CONTESTED {
        let trial = if sheet < SHEETS {
            Trial::draw_small(rt.alloc(), &mut draw)?
        } else {
            Trial::draw_contested(rt.alloc(), &mut draw)?
        };
        if wanted == Some(sheet) {
            show(rt, &trial)?;
        }
        if wanted.unwrap_or(sheet) == sheet {
            try_sheet(rt, &mut sums, sheet, &trial)?;
        }
    }
    Ok(sums)
}

// Prints how much was tried; ends with status 1 at the first promise that does not hold.
fn main(rt: HostRuntime) -> anyhow::Result<()> {
    let wanted = sheet_wanted(&rt)?;
    let sums = try_sheets(&rt, wanted)?;
    if let Some(sheet) = wanted {
        println!(rt; "sheet {sheet}: all promises held")?;
        return Ok(());
    }
    let Sums {
        best,
        open,
        damaged,
        refused,
    } = sums;
    println!(rt;
        "{SHEETS} small sheets and {CONTESTED} contested ones: {best} worth as much as the best pairing, {open} cut off and worth as much as the best one of the carriers served or out; {damaged} damaged files, {refused} of them refused"
    )?;
    Ok(())
}
