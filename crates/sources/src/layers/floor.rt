//! A layer that turns a worth below its floor into 0, and keeps the ceiling.
ghost use Rattle.std.specs.Prelude.{◌≡◌};
ghost use Rattle.sources.specs.Layers.{floored, floor_of};
ghost use Rattle.sources.specs.Laws.LayersSound.{floor_sound};

use crate::questions::Source;
use crate::records::{Entry, StoredRow};

/// A source with a floor over it: worths below the floor are told as 0.
#[derive(Drop)]
pub struct Floor<S> {
    pub below: S,
    pub floor: u64,
}

// 0 below the floor.
fn floored(floor: u64, worth: u64) -> u64
    ensures { result ≡ floored floor worth }
{
    if worth < floor { 0 } else { worth }
}

impl<S: Source> Source for Floor<S> {
    ghost meaning = { λ s. floor_of s.floor (S.Source.meaning s.below) };

    ghost sound = { λ s. floor_sound s.floor (S.Source.meaning s.below) (S.Source.sound s.below) };

    ghost entry_stored = { λ s. S.Source.entry_stored s.below };

    fn carriers(&self) -> usize {
        self.below.carriers()
    }

    fn jobs(&self) -> usize {
        self.below.jobs()
    }

    fn ceiling(&self) -> u64 {
        self.below.ceiling()
    }

    fn row_len(&self, carrier: usize) -> Option<usize> {
        self.below.row_len(carrier)
    }

    fn entry(&self, carrier: usize, index: usize) -> Option<(usize, u64)> {
        let (job, worth) = self.below.entry(carrier, index)?;
        Some((job, floored(self.floor, worth)))
    }

    #[inline(always)]
    fn stored_row(&self, carrier: usize) -> Option<StoredRow<'_>> {
        self.below.stored_row(carrier)
    }

    #[inline(always)]
    fn entry_made(&self, carrier: usize, index: usize, quick: bool, entry: Entry) -> (usize, u64) {
        let (job, worth) = self.below.entry_made(carrier, index, quick, entry);
        (job, floored(self.floor, worth))
    }
}
