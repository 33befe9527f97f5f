//! An auction as the trials know it: what the hall tells, and what they noted of the calls that led there.
use crate::bids::PricesSeen;
use crate::snapshot::Snapshot;
use crate::terms::Terms;

// `step` and `lanes` are those of the start that was accepted last. `calm_since` has for each carrier how many jobs were awarded when it
// last had no open bid, and `seen` what its open bid has seen.
#[derive(Clone, Copy)]
pub(crate) struct State {
    pub(crate) step: u64,
    pub(crate) lanes: usize,
    pub(crate) told: Snapshot,
    pub(crate) calm_since: [u64; 4],
    pub(crate) seen: [PricesSeen; 4],
}

impl State {
    // Just started.
    pub(crate) fn started(terms: &Terms, step: u64, lanes: usize) -> State {
        State {
            step,
            lanes,
            told: Snapshot::started(&terms.grid),
            calm_since: [0; 4],
            seen: [[None; 4]; 4],
        }
    }

    // What a carrier's open bid has seen.
    pub(crate) fn seen(&self, carrier: usize) -> PricesSeen {
        self.seen.get(carrier).copied().unwrap_or([None; 4])
    }

    // Whether no job was awarded since the carrier had no open bid.
    pub(crate) fn is_calm(&self, carrier: usize) -> bool {
        self.calm_since.get(carrier) == Some(&self.told.counts.awards)
    }

    // The state after an act, in which the hall tells this, and the carrier's open bid, if it still has one, has seen so much.
    pub(crate) fn after(&self, told: Snapshot, carrier: usize, seen: PricesSeen) -> State {
        let mut state = State { told, ..*self };
        if let Some(place) = state.seen.get_mut(carrier) {
            *place = seen;
        }
        for (carrier, awards) in state.calm_since.iter_mut().enumerate() {
            if !told.bids(carrier) {
                *awards = told.counts.awards;
            }
        }
        state
    }
}
