//! An open bid, reckoned anew from all the prices that it has seen.
use crate::laws::{Checks, Law};
use crate::snapshot::Snapshot;
use crate::state::State;
use crate::terms::Terms;
use auction::{Best, Bid, Standing};

// What each job cost when an open bid saw it, if the bid has looked at it.
pub(crate) type PricesSeen = [Option<u64>; 4];

// ---- nets

// A number with a sign; what is too large becomes the largest number there.
pub(crate) fn signed(number: u64) -> i64 {
    i64::try_from(number).unwrap_or(i64::MAX)
}

// 0 for a number below 0.
pub(crate) fn natural(number: i64) -> u64 {
    u64::try_from(number).unwrap_or(0)
}

// The nets of a carrier's jobs at these prices; none where there is no price, or where the job is worth nothing to the carrier.
pub(crate) fn nets_at(terms: &Terms, carrier: usize, prices: &PricesSeen) -> [Option<Best>; 4] {
    let mut nets = [None; 4];
    for (job, (net, price)) in nets.iter_mut().zip(prices).enumerate() {
        let worth = terms.grid.worth(carrier, job);
        if worth > 0 {
            *net = price.map(|price| Best {
                net: signed(worth).saturating_sub(signed(price)),
                job,
                worth,
            });
        }
    }
    nets
}

// The better of two nets: the larger one, and of equal ones that of the smaller job.
fn better_of(one: Best, other: Best) -> Best {
    if other.net > one.net || (other.net == one.net && other.job < one.job) {
        other
    } else {
        one
    }
}

// The best of all nets.
pub(crate) fn best_of(nets: &[Option<Best>; 4]) -> Option<Best> {
    nets.iter().flatten().copied().reduce(better_of)
}

// The largest of the nets of other jobs, or 0.
pub(crate) fn runner_up_of(nets: &[Option<Best>; 4], best: Best) -> u64 {
    nets.iter()
        .flatten()
        .filter(|other| other.job != best.job)
        .map(|other| natural(other.net))
        .max()
        .unwrap_or(0)
}

// The bid that has seen these prices.
pub(crate) fn bid_of(terms: &Terms, carrier: usize, seen: &PricesSeen) -> Bid {
    let nets = nets_at(terms, carrier, seen);
    let best = best_of(&nets);
    Bid {
        looked: seen.iter().flatten().count(),
        best,
        runner_up: best.map_or(0, |best| runner_up_of(&nets, best)),
    }
}

// ---- looks

// What a bid has seen after one look more: of the entries that it had not seen yet, the first ones, as many as there are lanes.
pub(crate) fn seen_further(terms: &Terms, before: &State, carrier: usize) -> PricesSeen {
    let mut seen = before.seen(carrier);
    let mut left = before.lanes;
    for (job, price) in seen.iter_mut().enumerate() {
        if left > 0 && price.is_none() && terms.has_entry(carrier, job) {
            *price = Some(before.told.price(job));
            left = left.saturating_sub(1);
        }
    }
    seen
}

// An open bid is what all the prices that it has seen make of it, and none of them has fallen since.
pub(crate) fn check_found(
    checks: &mut Checks,
    terms: &Terms,
    told: &Snapshot,
    carrier: usize,
    seen: &PricesSeen,
) -> Result<(), Law> {
    let mut risen = false;
    for (price, now) in seen.iter().zip(&told.prices) {
        if let Some(price) = *price {
            checks.hold(Law::NotFallen, price <= *now)?;
            risen |= price < *now;
        }
    }
    let law = if risen {
        Law::FoundAfterRise
    } else {
        Law::Found
    };
    let found = bid_of(terms, carrier, seen);
    checks.hold(law, told.standing(carrier) == Standing::Bidding(found))
}
