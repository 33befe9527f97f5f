//! A layer that turns a worth w into the smaller of factor × w and 2^60, and the ceiling likewise.
ghost use Rattle.std.specs.Prelude.{◌≡◌, ◌^◌, ◌<◌, true};
ghost use Rattle.sources.specs.Layers.{scaled, times_of};
ghost use Rattle.sources.specs.Laws.LayersSound.{times_sound};

use crate::questions::Source;
use crate::records::{Entry, StoredRow};

/// The highest worth and the highest ceiling of any source: a times layer stops there.
pub const HIGHEST_WORTH: u64 = 1 << 60;

// No product of a worth below this reaches 2^60.
const SMALL_WORTH: u64 = 1 << 28;

/// Each worth of the source below times a factor, at most 2^60.
#[derive(Drop)]
pub struct Times<S> {
    pub below: S,
    pub factor: u32,
}

fn multiplied(factor: u32, worth: u64) -> u64
    ensures { result ≡ scaled factor worth }
{
    u64::from(factor).saturating_mul(worth).min(HIGHEST_WORTH)
}

// The factor with room for products. Below 2^32, as its type says.
fn wide(factor: u32) -> u64
    ensures value { result ≡ factor }
    ensures low { result < 2 ^ 32 }
{
    u64::from(factor)
}

impl<S: Source> Source for Times<S> {
    ghost meaning = { λ s. times_of s.factor (S.Source.meaning s.below) };

    ghost sound = { λ s. times_sound s.factor (S.Source.meaning s.below) (S.Source.sound s.below) };

    // The quick product of a large worth may wrap.
    ghost entry_stored = { λ s i k quick e. S.Source.entry_stored s.below i k quick e × (quick ≡ true → (S.Source.meaning s.below).ceiling < 2 ^ 28) };

    fn carriers(&self) -> usize {
        self.below.carriers()
    }

    fn jobs(&self) -> usize {
        self.below.jobs()
    }

    fn ceiling(&self) -> u64 {
        multiplied(self.factor, self.below.ceiling())
    }

    fn row_len(&self, carrier: usize) -> Option<usize> {
        self.below.row_len(carrier)
    }

    fn entry(&self, carrier: usize, index: usize) -> Option<(usize, u64)> {
        let (job, worth) = self.below.entry(carrier, index)?;
        Some((job, multiplied(self.factor, worth)))
    }

    // One test for the whole row: the factor is then one multiplication for each entry, with no test for a product that is too large.
    #[inline(always)]
    fn stored_row(&self, carrier: usize) -> Option<StoredRow<'_>> {
        let StoredRow { entries, quick } = self.below.stored_row(carrier)?;
        Some(StoredRow {
            entries,
            quick: quick && self.below.ceiling() < SMALL_WORTH,
        })
    }

    #[inline(always)]
    fn entry_made(&self, carrier: usize, index: usize, quick: bool, entry: Entry) -> (usize, u64) {
        let (job, worth) = self.below.entry_made(carrier, index, quick, entry);
        if quick {
            (job, wide(self.factor).wrapping_mul(worth))
        } else {
            (job, multiplied(self.factor, worth))
        }
    }
}
