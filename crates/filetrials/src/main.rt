//! Whole, damaged and random sheet files through the loader, the same ones in each run: every accepted one is written
//! again and compared, also to a buffer that is too short, and the three states and tables of one's own are compared with
//! the load of a whole file. Prints what became of them, and the first one of each kind that is wrong.
#![tactic(auto)]

mod checks;
mod wrong;

use anyhow::ensure;
use checks::check_file;
use grids::draws::Draw;
use grids::groups::push_number;
use refusals::Refusal;
use std::alloc::{AllocError, Global};
use std::collections::BTreeMap;
use std::{fmt, io};
use wrong::{Found, Origin, Wrong};

// Small seeds are spread over all bits.
const SPREAD: u64 = 0x9e37_79b9_7f4a_7c15;

// Appends a row of so many entries.
fn push_row(
    bytes: &mut Vec<u8>,
    draw: &mut Draw,
    count: u64,
    step: u64,
    ceiling: u64,
) -> Result<(), AllocError> {
    push_number(bytes, count)?;
    let mut job = draw.below(step);
    for _ in 0..count {
        push_number(bytes, job)?;
        push_number(bytes, draw.below(ceiling).saturating_add(1))?;
        job = job.saturating_add(draw.below(step).saturating_add(1));
    }
    Ok(())
}

// A sheet of up to 4 carriers with up to 4 entries each, small numbers and large ones.
fn sheet_file(heap: Global, draw: &mut Draw) -> Result<Vec<u8>, AllocError> {
    let mut bytes = Vec::new(heap);
    let carriers = draw.below(4).saturating_add(1);
    let (jobs, step) = if draw.below(2) == 0 {
        (16, 4)
    } else {
        (256, 60)
    };
    let ceiling = match draw.below(3) {
        0 => 9,
        1 => 300,
        _ => 1 << 36,
    };
    push_number(&mut bytes, carriers)?;
    push_number(&mut bytes, jobs)?;
    push_number(&mut bytes, ceiling)?;
    let mut total = 0u64;
    for _ in 0..carriers {
        let count = draw.below(5);
        push_row(&mut bytes, draw, count, step, ceiling)?;
        total = total.saturating_add(count);
    }
    push_number(&mut bytes, total)?;
    Ok(bytes)
}

// Up to 24 bytes, most of them small.
fn random_file(heap: Global, draw: &mut Draw) -> Result<Vec<u8>, AllocError> {
    let mut bytes = Vec::new(heap);
    let len = draw.below(25);
    for _ in 0..len {
        let most = match draw.below(8) {
            0 => 256,
            1 => 20,
            _ => 3,
        };
        bytes.push((draw.below(most) & 255) as u8)?;
    }
    Ok(bytes)
}

// What became of files. Refusals are counted by their numbers, which are printed, in their order.
#[derive(Drop)]
struct Tally {
    heap: Global,
    same: u64,
    wrong: u64,
    first: Option<Found>,
    refused: BTreeMap<u8, u64>,
}

impl Tally {
    fn new(heap: Global) -> Tally {
        Tally {
            heap,
            same: 0,
            wrong: 0,
            first: None,
            refused: BTreeMap::new(heap),
        }
    }

    // A file was refused, as it should be.
    fn refuse(&mut self, refusal: Refusal) -> Result<(), AllocError> {
        let count = self.refused.entry(refusal.number())?.or_insert(0);
        *count = count.saturating_add(1);
        Ok(())
    }

    // A file is wrong; the first one is kept.
    fn keep(&mut self, origin: Origin, wrong: Wrong, bytes: &[u8]) -> Result<(), AllocError> {
        self.wrong = self.wrong.saturating_add(1);
        if self.first.is_none() {
            let bytes = Vec::from_slice(self.heap, bytes)?;
            self.first = Some(Found {
                origin,
                wrong,
                bytes,
            });
        }
        Ok(())
    }

    // Checks a file, and counts what became of it.
    fn examine(&mut self, origin: Origin, bytes: &[u8]) -> Result<(), AllocError> {
        match check_file(bytes) {
            Ok(Ok(())) => {
                self.same = self.same.saturating_add(1);
                Ok(())
            }
            Ok(Err(fault)) => self.refuse(fault.refusal),
            Err(wrong) => self.keep(origin, wrong, bytes),
        }
    }

    // Examines a file with each other byte at one place.
    fn change_at(&mut self, sheet: u32, bytes: &mut [u8], place: usize) -> Result<(), AllocError> {
        let Some(kept) = bytes.get(place).copied() else {
            return Ok(());
        };
        for byte in (0..=255u8).filter(|other| *other != kept) {
            bytes[place] = byte;
            self.examine(Origin::Changed { sheet, place, byte }, bytes)?;
        }
        bytes[place] = kept;
        Ok(())
    }

    // Examines a file with each single byte changed in every way.
    fn change_each(&mut self, sheet: u32, bytes: &mut [u8]) -> Result<(), AllocError> {
        // By place: the whole file is examined each time, so no loop can hold one of its bytes.
        for place in 0..bytes.len() {
            self.change_at(sheet, bytes, place)?;
        }
        Ok(())
    }

    // Examines each part of a file from its start, but the whole.
    fn cut_each(&mut self, sheet: u32, bytes: &[u8]) -> Result<(), AllocError> {
        // By place: what is examined is the file up to a place, and no library method gives each beginning of a slice.
        for end in 0..bytes.len() {
            self.examine(Origin::Cut { sheet, end }, &bytes[..end])?;
        }
        Ok(())
    }
}

impl fmt::Display for Tally {
    fn fmt<W: fmt::Write>(&self, f: &mut fmt::Formatter<W>) -> fmt::Result {
        let same = self.same;
        let wrong = self.wrong;
        write!(
            f,
            "{same} accepted and the same when written again, {wrong} wrong"
        )?;
        for (number, count) in &self.refused {
            write!(f, ", {count} refused with {number}")?;
        }
        Ok(())
    }
}

// Examines some sheets, whole and damaged.
fn try_sheets(heap: Global, count: u32) -> Result<[Tally; 3], AllocError> {
    let mut draw = Draw::new(1 ^ SPREAD);
    let mut sheets = Tally::new(heap);
    let mut changes = Tally::new(heap);
    let mut cuts = Tally::new(heap);
    for sheet in 0..count {
        let mut file = sheet_file(heap, &mut draw)?;
        sheets.examine(Origin::Sheet(sheet), &file)?;
        changes.change_each(sheet, &mut file)?;
        cuts.cut_each(sheet, &file)?;
    }
    Ok([sheets, changes, cuts])
}

// Examines some random files.
fn try_random(heap: Global, count: u32) -> Result<Tally, AllocError> {
    let mut draw = Draw::new(2 ^ SPREAD);
    let mut tally = Tally::new(heap);
    for number in 0..count {
        let file = random_file(heap, &mut draw)?;
        tally.examine(Origin::Random(number), &file)?;
    }
    Ok(tally)
}

// Prints what became of the files of a kind.
fn tell(rt: &impl Print, kind: &str, tally: &Tally) -> io::Result<()> {
    println!(rt; "{kind}: {tally}")?;
    if let Some(first) = &tally.first {
        println!(rt; "the first wrong one: {first}")?;
    }
    Ok(())
}

// Ends with status 1 if a file is wrong.
fn main(rt: HostRuntime) -> anyhow::Result<()> {
    let [sheets, changes, cuts] = try_sheets(rt.alloc(), 48)?;
    tell(&rt, "sheets", &sheets)?;
    tell(&rt, "single bytes changed", &changes)?;
    tell(&rt, "cuts", &cuts)?;
    let random = try_random(rt.alloc(), 20000)?;
    tell(&rt, "random files", &random)?;
    ensure!(
        sheets.wrong == 0 && changes.wrong == 0 && cuts.wrong == 0 && random.wrong == 0,
        "a check is broken"
    );
    Ok(())
}
