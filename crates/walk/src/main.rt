//! Walks through an auction of three jobs among three carriers, call by call, and prints what each call tells.
#![tactic(auto)]

use anyhow::anyhow;
use auction::Call;
use hall::Hall;
use sources::{Sheet, Source};
use std::io;
use three_by_three::{ENTRIES, HEADING, STARTS};

// How an auction starts here.
const START: Call = Call::Start { step: 1, lanes: 4 };

// Makes a call, and prints it with what it tells.
fn make<S: Source>(rt: &impl Print, hall: &mut Hall<S>, call: Call) -> io::Result<()> {
    match call {
        Call::Start { step, lanes } => print!(rt; "start, step {step}, lanes {lanes}: ")?,
        _ => print!(rt; "{call}: ")?,
    }
    match hall.perform(call) {
        Ok(answer) => println!(rt; "{answer}"),
        Err(refusal) => println!(rt; "refused {refusal}"),
    }
}

// A whole bid, with nothing in between.
fn bid<S: Source>(rt: &impl Print, hall: &mut Hall<S>, carrier: usize) -> io::Result<()> {
    make(rt, hall, Call::Summon(carrier))?;
    make(rt, hall, Call::Look(carrier))?;
    make(rt, hall, Call::Settle(carrier))
}

// One carrier after the other.
fn walk_in_turn<S: Source>(rt: &impl Print, hall: &mut Hall<S>) -> io::Result<()> {
    make(rt, hall, START)?;
    for carrier in [0, 1, 2, 0] {
        bid(rt, hall, carrier)?;
    }
    make(rt, hall, Call::Settle(0))
}

// All three look before any settles: the last bid, 7, meets a price of 8.
fn walk_together<S: Source>(rt: &impl Print, hall: &mut Hall<S>) -> io::Result<()> {
    make(rt, hall, START)?;
    for carrier in 0..3 {
        make(rt, hall, Call::Summon(carrier))?;
    }
    make(rt, hall, Call::Settle(0))?;
    for carrier in 0..3 {
        make(rt, hall, Call::Look(carrier))?;
    }
    make(rt, hall, Call::Look(0))?;
    for carrier in 0..3 {
        make(rt, hall, Call::Settle(carrier))?;
    }
    for carrier in [0, 2] {
        bid(rt, hall, carrier)?;
    }
    make(rt, hall, Call::Summon(3))
}

fn main(rt: HostRuntime) -> anyhow::Result<()> {
    let mut sheet = Sheet::new();
    if let Err(refusal) = sheet.fill(HEADING, &STARTS, &ENTRIES) {
        println!(rt; "refused {refusal}")?;
        return Err(anyhow!("the sheet was refused"));
    }
    let mut hall = Hall::new(sheet);
    make(&rt, &mut hall, Call::Summon(0))?;
    make(&rt, &mut hall, Call::Start { step: 0, lanes: 4 })?;
    walk_in_turn(&rt, &mut hall)?;
    walk_together(&rt, &mut hall)?;
    Ok(())
}
