//! What a hall tells.
use crate::terms::Terms;
use auction::{Counts, Standing};
use grids::Grid;
use hall::Hall;
use refusals::Refusal;
use sources::Source;

// The answers to all questions. Who is no carrier counts as out.
#[derive(Clone, Copy, PartialEq, Eq, Debug)]
pub(crate) struct Snapshot {
    pub(crate) counts: Counts,
    pub(crate) standings: [Standing; 4],
    pub(crate) prices: [u64; 4],
    pub(crate) holders: [Option<usize>; 4],
    pub(crate) worth: u64,
}

impl Snapshot {
    // What a hall tells that was just started.
    pub(crate) fn started(grid: &Grid) -> Snapshot {
        let mut standings = [Standing::Out; 4];
        for standing in standings.iter_mut().take(grid.carriers) {
            *standing = Standing::Waiting;
        }
        Snapshot {
            counts: Counts::default(),
            standings,
            prices: [0; 4],
            holders: [None; 4],
            worth: 0,
        }
    }

    // What a started hall tells now.
    pub(crate) fn ask<S: Source>(hall: &Hall<S>, terms: &Terms) -> Result<Snapshot, Refusal> {
        let mut told = Snapshot::started(&terms.grid);
        told.counts = hall.counts()?;
        told.worth = hall.worth()?;
        told.ask_carriers(hall, terms.grid.carriers)?;
        told.ask_jobs(hall, terms.grid.jobs)?;
        Ok(told)
    }

    fn ask_carriers<S: Source>(&mut self, hall: &Hall<S>, carriers: usize) -> Result<(), Refusal> {
        for (carrier, standing) in self.standings.iter_mut().take(carriers).enumerate() {
            *standing = hall.standing(carrier)?;
        }
        Ok(())
    }

    fn ask_jobs<S: Source>(&mut self, hall: &Hall<S>, jobs: usize) -> Result<(), Refusal> {
        let places = self.prices.iter_mut().zip(self.holders.iter_mut());
        for (job, (price, holder)) in places.take(jobs).enumerate() {
            *price = hall.price(job)?;
            *holder = hall.holder(job)?;
        }
        Ok(())
    }

    pub(crate) fn price(&self, job: usize) -> u64 {
        self.prices.get(job).copied().unwrap_or(0)
    }

    pub(crate) fn holder(&self, job: usize) -> Option<usize> {
        self.holders.get(job).copied().flatten()
    }

    pub(crate) fn standing(&self, carrier: usize) -> Standing {
        self.standings
            .get(carrier)
            .copied()
            .unwrap_or(Standing::Out)
    }

    pub(crate) fn waits(&self, carrier: usize) -> bool {
        self.standing(carrier) == Standing::Waiting
    }

    pub(crate) fn bids(&self, carrier: usize) -> bool {
        matches!(self.standing(carrier), Standing::Bidding(_))
    }

    pub(crate) fn who_waits(&self) -> [bool; 4] {
        self.standings.map(|standing| standing == Standing::Waiting)
    }

    pub(crate) fn who_bids(&self) -> [bool; 4] {
        self.standings
            .map(|standing| matches!(standing, Standing::Bidding(_)))
    }

    // How many carriers wait.
    pub(crate) fn waiting(&self) -> usize {
        self.who_waits().iter().filter(|waits| **waits).count()
    }

    // How many bids are open.
    pub(crate) fn bidding(&self) -> usize {
        self.who_bids().iter().filter(|bids| **bids).count()
    }

    // Who is served or out.
    pub(crate) fn done(&self) -> [bool; 4] {
        self.standings.map(|standing| matches!(standing, Standing::Served(_) | Standing::Out))
    }

    // The same with another standing of a carrier.
    pub(crate) fn with_standing(&self, carrier: usize, standing: Standing) -> Snapshot {
        let mut told = *self;
        if let Some(place) = told.standings.get_mut(carrier) {
            *place = standing;
        }
        told
    }
}
