//! Random auctions on small sheets: random lists of calls, on a sheet as it is, under a times layer, under a floor layer, and under
//! a times layer over a floor layer. After each call every law is checked by the hall's own answers, beside a search through all
//! pairings; each bid is reckoned anew from the prices that it has seen, and each run is looked inside step by step.
#![tactic(auto)]

mod acts;
mod bids;
mod course;
mod drawn;
mod laws;
mod pairings;
mod refused;
mod runs;
mod snapshot;
mod state;
mod terms;
mod verdicts;

use anyhow::{Context, bail, ensure};
use course::Course;
use drawn::{CALLS, Trial, tables_of};
use grids::draws::Draw;
use laws::{Checks, LAWS};
use sources::{Floor, Heading, Sheet, Source, Times};
use std::{env, io};
use terms::{Layers, Terms};

const SHEETS: u32 = 5000;

// The checks made so far, the sheet that is tried now, and whether its calls are printed.
#[derive(Drop)]
struct Bench {
    checks: Checks,
    sheet: u32,
    is_shown: bool,
}

// Prints the calls of a course, each with its answer, as a log has them.
fn show<S: Source + Drop>(rt: &impl Print, course: &Course<'_, S>) -> io::Result<()> {
    let layers = course.terms.layers;
    println!(rt; "{layers}")?;
    let answers = course.replayed();
    let calls = course.calls;
    for (number, (call, answer)) in calls.iter().zip(&answers).enumerate() {
        match *answer {
            Ok(answer) => println!(rt; "{number} {call}: {answer}")?,
            Err(refusal) => println!(rt; "{number} {call}: refused {refusal}")?,
        }
    }
    Ok(())
}

// Plays the calls of a trial on a source. If a law is broken, it prints which and where.
fn on_source<S: Source + Drop>(
    rt: &impl Print,
    bench: &mut Bench,
    trial: &Trial,
    source: &S,
    terms: Terms,
) -> anyhow::Result<()> {
    let course = Course {
        source,
        terms: &terms,
        calls: &trial.calls,
    };
    if bench.is_shown {
        show(rt, &course)?;
    }
    let sheet = bench.sheet;
    if let Err(failure) = course.check(&mut bench.checks) {
        println!(rt; "sheet {sheet} {failure}")?;
        bail!(
            "a law is broken; `trials {sheet}` makes the calls on this sheet alone, and prints them"
        );
    }
    Ok(())
}

// Plays the calls of a trial on its sheet, and under layers.
fn on_layers(
    rt: &impl Print,
    bench: &mut Bench,
    trial: &Trial,
    sheet: &Sheet<'_>,
) -> anyhow::Result<()> {
    let Trial { factor, floor, .. } = *trial;
    let plain = Terms::plain(trial.grid);
    let floored = plain.floor(floor);
    let above_floor = Floor {
        below: sheet,
        floor,
    };
    let times = Times {
        below: sheet,
        factor,
    };
    on_source(rt, bench, trial, sheet, plain)?;
    on_source(rt, bench, trial, &times, plain.times(factor, Layers::Times))?;
    on_source(rt, bench, trial, &above_floor, floored)?;
    let both = Times {
        below: &above_floor,
        factor,
    };
    let terms = floored.times(factor, Layers::TimesOverFloor);
    on_source(rt, bench, trial, &both, terms)
}

// One trial, on a sheet of its grid.
fn on_trial(rt: &HostRuntime, bench: &mut Bench, trial: &Trial) -> anyhow::Result<()> {
    let tables = tables_of(rt.alloc(), &trial.grid)?;
    let heading = Heading {
        carriers: trial.grid.carriers,
        jobs: trial.grid.jobs,
        ceiling: trial.grid.ceiling,
    };
    let mut sheet = Sheet::new();
    sheet.fill(heading, &tables.starts, &tables.entries)?;
    on_layers(rt, bench, trial, &sheet)
}

// The number of the sheet that is to be tried alone, if the program was given one.
fn sheet_wanted(rt: &HostRuntime) -> anyhow::Result<Option<u32>> {
    let Some(text) = env::args(rt)?.nth(1) else {
        return Ok(None);
    };
    let number = text
        .parse::<u32>()
        .context("the number of a sheet is wanted")?;
    ensure!(number < SHEETS, "there is no sheet {number}");
    Ok(Some(number))
}

// How often each law had something to check. One that never had would be no check.
fn tell_checks(rt: &impl Print, checks: &Checks) -> anyhow::Result<()> {
    for (law, text) in LAWS {
        let made = checks.made(law);
        println!(rt; "{made} {text}")?;
        ensure!(made > 0, "a law was never checked");
    }
    Ok(())
}

// Prints how much was tried; ends with status 1 at the first law that is broken.
fn main(rt: HostRuntime) -> anyhow::Result<()> {
    let wanted = sheet_wanted(&rt)?;
    let mut draw = Draw::new(20261118);
    let mut bench = Bench {
        checks: Checks::none(),
        sheet: 0,
        is_shown: wanted.is_some(),
    };
    for sheet in 0..SHEETS {
        let trial = Trial::draw(&mut draw);
        bench.sheet = sheet;
        if wanted.unwrap_or(sheet) == sheet {
            on_trial(&rt, &mut bench, &trial)?;
        }
    }
    if let Some(sheet) = wanted {
        println!(rt; "sheet {sheet}: all laws held")?;
    } else {
        println!(rt;
            "{SHEETS} sheets, each with {CALLS} calls under four piles of layers: all laws held. How often each was checked:"
        )?;
        tell_checks(&rt, &bench.checks)?;
    }
    Ok(())
}
