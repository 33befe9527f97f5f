//! A source over the places of carriers and jobs: the nearer a job, the more it is worth.
ghost use Rattle.std.specs.Prelude.{◌^◌, ◌<◌};
ghost use Rattle.sources.specs.Travel.{positions_of};
ghost use Rattle.sources.specs.Laws.PositionsSound.{positions_sound};

use crate::places::{Place, worth};
use crate::questions::Source;

/// A source over places: a job is worth what is left of the reach after the travel to it. Each row has an entry for each job; the
/// ceiling is the reach.
#[derive(Drop)]
pub struct Positions<'a> {
    pub carriers: &'a [Place],
    pub jobs: &'a [Place],
    pub reach: u32,
    ghost fits: { reach < 2 ^ 32 },
}

impl Source for Positions<'_> {
    ghost meaning = { λ s. positions_of s.carriers.now s.jobs.now s.reach };

    ghost sound = { λ s. positions_sound s.carriers.now s.jobs.now s.reach s.fits };

    fn carriers(&self) -> usize {
        self.carriers.len()
    }

    fn jobs(&self) -> usize {
        self.jobs.len()
    }

    fn ceiling(&self) -> u64 {
        u64::from(self.reach)
    }

    fn row_len(&self, carrier: usize) -> Option<usize> {
        if carrier < self.carriers.len() {
            Some(self.jobs.len())
        } else {
            None
        }
    }

    fn entry(&self, carrier: usize, index: usize) -> Option<(usize, u64)> {
        let from = *self.carriers.get(carrier)?;
        let to = *self.jobs.get(index)?;
        Some((index, u64::from(worth(self.reach, from, to))))
    }
}
