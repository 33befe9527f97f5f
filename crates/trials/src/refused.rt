//! Which calls the rules refuse.
use crate::acts::act_of;
use crate::laws::{Checks, Law};
use crate::snapshot::Snapshot;
use crate::terms::Terms;
use auction::{Act, Call, Standing};
use hall::Hall;
use refusals::Refusal;
use sources::Source;

// Why the rules refuse a start, if they do. The counts of the sheets drawn are within the limits.
fn refusal_of_start(step: u64, lanes: usize) -> Option<Refusal> {
    if !(1..=1 << 36).contains(&step) {
        return Some(Refusal::StepOutside);
    }
    (!(1..=32).contains(&lanes)).then_some(Refusal::LanesOutside)
}

// Why the rules refuse a summons, a look or a settle, if they do.
fn refusal_of_act(terms: &Terms, before: &Snapshot, carrier: usize, act: Act) -> Option<Refusal> {
    if carrier >= terms.grid.carriers {
        return Some(Refusal::NoSuchCarrier);
    }
    let entries = terms.entries(carrier);
    match (before.standing(carrier), act) {
        (Standing::Bidding(bid), Act::Look) if bid.looked >= entries => Some(Refusal::RowLookedAt),
        (Standing::Bidding(bid), Act::Settle) if bid.looked < entries => Some(
            Refusal::RowNotLookedAt,
        ),
        (Standing::Waiting, Act::Summon) | (Standing::Bidding(_), Act::Look | Act::Settle) => None,
        (_, Act::Summon) => Some(Refusal::NotWaiting),
        (_, Act::Look | Act::Settle) => Some(Refusal::NoOpenBid),
    }
}

// Why the rules refuse a call, if they do. `before` is what the hall told before it, if it was started.
pub(crate) fn refusal_of(terms: &Terms, before: Option<&Snapshot>, call: Call) -> Option<Refusal> {
    if let Call::Start { step, lanes } = call {
        return refusal_of_start(step, lanes);
    }
    let Some(before) = before else {
        return Some(Refusal::NeverStarted);
    };
    if let Some((act, carrier)) = act_of(call) {
        return refusal_of_act(terms, before, carrier, act);
    }
    match call {
        Call::Run { depth, .. } if !(1..=128).contains(&depth) => Some(Refusal::DepthOutside),
        Call::PriceOf(job) | Call::HolderOf(job) if job >= terms.grid.jobs => Some(
            Refusal::NoSuchJob,
        ),
        Call::StandingOf(carrier) if carrier >= terms.grid.carriers => Some(Refusal::NoSuchCarrier),
        _ => None,
    }
}

// Each of these calls is refused because no start was accepted.
fn check_refused<S: Source>(
    checks: &mut Checks,
    hall: &mut Hall<S>,
    calls: &[Call],
) -> Result<(), Law> {
    for call in calls {
        let answer = hall.perform(*call);
        checks.hold(Law::NeverStarted, answer == Err(Refusal::NeverStarted))?;
    }
    Ok(())
}

// Every call but a start is refused, whatever its number: those of four carriers and jobs are tried, and one that is too large.
pub(crate) fn check_never_started<S: Source>(
    checks: &mut Checks,
    hall: &mut Hall<S>,
) -> Result<(), Law> {
    check_refused(checks, hall, &[Call::TotalWorth, Call::AllCounts])?;
    for number in 0..=4 {
        let calls = [
            Call::PriceOf(number),
            Call::HolderOf(number),
            Call::StandingOf(number),
            Call::Summon(number),
            Call::Look(number),
            Call::Settle(number),
            Call::Run {
                depth: number,
                budget: 1,
            },
        ];
        check_refused(checks, hall, &calls)?;
    }
    Ok(())
}
