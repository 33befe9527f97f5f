//! One sheet: its listing beside the best pairing, buffers of every kind, and damaged files.
use crate::file::file_of;
use crate::listing::{Listing, read_listing};
use crate::promises::{Failure, Promise};
use grids::Grid;
use grids::draws::Draw;
use pairing::list_pairs;
use refusals::Refusal;
use std::alloc::{AllocError, Global};
use std::str;

pub(crate) const ROOM: usize = 512;

const UNTOUCHED: u8 = b'#';

// How much was tried.
#[derive(Default, Drop)]
pub(crate) struct Sums {
    pub(crate) best: u64,
    pub(crate) open: u64,
    pub(crate) damaged: u64,
    pub(crate) refused: u64,
}

// A sheet with its file. A small one has damaged files too.
#[derive(Drop)]
pub(crate) struct Trial {
    pub(crate) grid: Grid,
    pub(crate) file: Vec<u8>,
    pub(crate) damages: Option<Damages>,
}

// The file with one byte changed, cut at a place, and with a byte more.
#[derive(Drop)]
pub(crate) struct Damages {
    pub(crate) changed: Vec<u8>,
    pub(crate) cut: Vec<u8>,
    pub(crate) longer: Vec<u8>,
}

// Three carriers, and two jobs of the same high worth to all of them.
fn contested(draw: &mut Draw) -> Grid {
    let worth = 2_000_000 + draw.below(1000);
    let row = [worth, worth, 0, 0];
    Grid {
        carriers: 3,
        jobs: 2,
        ceiling: worth,
        worths: [row, row, row, [0; 4]],
    }
}

// Whether all bytes are as they were.
fn is_untouched(bytes: &[u8]) -> bool {
    bytes.iter().all(|byte| *byte == UNTOUCHED)
}

// The listing of a sheet in a buffer; none if the sheet is refused, or a byte behind the listing is touched.
fn listing_in<'a>(sheet: &[u8], out: &'a mut [u8; ROOM]) -> Option<&'a str> {
    let len = list_pairs(sheet, out).ok()?;
    let (text, behind) = out.split_at_checked(len)?;
    is_untouched(behind)
        .then(|| str::from_utf8(text).ok())
        .flatten()
}

// Whether a call is refused with this, and touches none of the bytes.
fn is_refused(sheet: &[u8], out: &mut [u8], refusal: Refusal) -> bool {
    list_pairs(sheet, out) == Err(refusal) && is_untouched(out)
}

// Refuses with the promise if it does not hold.
fn hold(promise: Promise, holds: bool) -> Result<(), Promise> {
    if holds { Ok(()) } else { Err(promise) }
}

// A listing is right, and worth as much as the best pairing of the carriers that have a job or are out, also where the auction was cut
// off; and it is refused where one byte less is lent.
fn check_listing(grid: &Grid, sheet: &[u8], sums: &mut Sums) -> Result<(), Promise> {
    let mut out = [UNTOUCHED; ROOM];
    let text = listing_in(sheet, &mut out).ok_or(Promise::Paired)?;
    let Listing { worth, open, done } = read_listing(grid, text).ok_or(Promise::Lines)?;
    let count = if open == 0 {
        &mut sums.best
    } else {
        &mut sums.open
    };
    *count = count.saturating_add(1);
    hold(Promise::Best, worth == grid.only(&done).best())?;
    let mut short = [UNTOUCHED; ROOM];
    let room = text.len().saturating_sub(1).min(ROOM);
    let is_short = is_refused(sheet, &mut short[..room], Refusal::TooShort);
    hold(Promise::Short, is_short)
}

// A file with one byte changed: refused, and then the buffer is as it was, or paired.
fn check_changed(changed: &[u8], sums: &mut Sums) -> Result<(), Promise> {
    let mut out = [UNTOUCHED; ROOM];
    sums.damaged = sums.damaged.saturating_add(1);
    let touched = match list_pairs(changed, &mut out) {
        Ok(len) => len,
        Err(_) => {
            sums.refused = sums.refused.saturating_add(1);
            0
        }
    };
    let is_kept = out.get(touched..).is_some_and(is_untouched);
    hold(Promise::Changed, is_kept)
}

// A file that is refused with this, and leaves the buffer as it was.
fn check_refused(file: &[u8], refusal: Refusal, promise: Promise) -> Result<(), Promise> {
    let mut out = [UNTOUCHED; ROOM];
    hold(promise, is_refused(file, &mut out, refusal))
}

impl Damages {
    fn draw(heap: Global, draw: &mut Draw, sheet: &[u8]) -> Result<Damages, AllocError> {
        let mut changed = Vec::from_slice(heap, sheet)?;
        let at = draw.below(sheet.len() as u64) as usize;
        if let Some(byte) = changed.get_mut(at) {
            *byte = draw.below(256) as u8;
        }
        let end = draw.below(sheet.len() as u64) as usize;
        let cut = Vec::from_slice(heap, sheet.get(..end).unwrap_or(sheet))?;
        let mut longer = Vec::from_slice(heap, sheet)?;
        longer.push(0)?;
        Ok(Damages {
            changed,
            cut,
            longer,
        })
    }

    fn check(&self, sums: &mut Sums) -> Result<(), Failure<'_>> {
        check_changed(&self.changed, sums).map_err(|promise| Failure {
            promise,
            file: &self.changed,
        })?;
        check_refused(&self.cut, Refusal::NumberCut, Promise::Cut).map_err(|promise| Failure {
            promise,
            file: &self.cut,
        })?;
        check_refused(&self.longer, Refusal::BytesFollow, Promise::Longer).map_err(|promise| {
            Failure {
                promise,
                file: &self.longer,
            }
        })
    }
}

impl Trial {
    pub(crate) fn draw_small(heap: Global, draw: &mut Draw) -> Result<Trial, AllocError> {
        let grid = Grid::draw(draw, 400);
        let file = file_of(heap, &grid)?;
        let damages = Damages::draw(heap, draw, &file)?;
        Ok(Trial {
            grid,
            file,
            damages: Some(damages),
        })
    }

    pub(crate) fn draw_contested(heap: Global, draw: &mut Draw) -> Result<Trial, AllocError> {
        let grid = contested(draw);
        let file = file_of(heap, &grid)?;
        Ok(Trial {
            grid,
            file,
            damages: None,
        })
    }

    // Checks each promise; tells the first that does not hold.
    pub(crate) fn check(&self, sums: &mut Sums) -> Result<(), Failure<'_>> {
        check_listing(&self.grid, &self.file, sums).map_err(|promise| Failure {
            promise,
            file: &self.file,
        })?;
        match &self.damages {
            Some(damages) => damages.check(sums),
            None => Ok(()),
        }
    }
}
