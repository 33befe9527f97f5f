//! Summonses, looks and settles, those of a run too: what each of them has to alter.
use crate::bids::{check_found, seen_further};
use crate::laws::{Checks, Law};
use crate::snapshot::Snapshot;
use crate::state::State;
use crate::terms::Terms;
use crate::verdicts::OpenBid;
use auction::{Act, Answer, Award, Bid, Call, Held, Standing, Verdict};

// The call of an act.
pub(crate) fn call_of(act: Act, carrier: usize) -> Call {
    match act {
        Act::Summon => Call::Summon(carrier),
        Act::Look => Call::Look(carrier),
        Act::Settle => Call::Settle(carrier),
    }
}

// The act of a call, if it is one.
pub(crate) fn act_of(call: Call) -> Option<(Act, usize)> {
    match call {
        Call::Summon(carrier) => Some((Act::Summon, carrier)),
        Call::Look(carrier) => Some((Act::Look, carrier)),
        Call::Settle(carrier) => Some((Act::Settle, carrier)),
        _ => None,
    }
}

// What the hall has to tell after an award.
fn awarded(terms: &Terms, before: &Snapshot, carrier: usize, award: Award) -> Snapshot {
    let worth = terms.grid.worth(carrier, award.job);
    let mut told = *before;
    if let Some(former) = award.displaced {
        told = told.with_standing(former, Standing::Waiting);
        told.worth = told
            .worth
            .saturating_sub(terms.grid.worth(former, award.job));
    }
    told.worth = told.worth.saturating_add(worth);
    if let Some(price) = told.prices.get_mut(award.job) {
        *price = award.price;
    }
    if let Some(holder) = told.holders.get_mut(award.job) {
        *holder = Some(carrier);
    }
    told.counts.awards = told.counts.awards.saturating_add(1);
    told.with_standing(
        carrier,
        Standing::Served(Held {
            job: award.job,
            worth,
        }),
    )
}

// What the hall has to tell after a verdict.
fn carried_out(terms: &Terms, before: &Snapshot, carrier: usize, verdict: Verdict) -> Snapshot {
    let mut told = *before;
    match verdict {
        Verdict::Out => {
            told.counts.outs = told.counts.outs.saturating_add(1);
            told.with_standing(carrier, Standing::Out)
        }
        Verdict::Stale => {
            told.counts.stales = told.counts.stales.saturating_add(1);
            told.with_standing(carrier, Standing::Waiting)
        }
        Verdict::Awarded(award) => awarded(terms, before, carrier, award),
    }
}

// A summons opens a bid that has looked at nothing.
fn after_summons(
    checks: &mut Checks,
    before: &State,
    carrier: usize,
    told: Snapshot,
) -> Result<State, Law> {
    let seen = [None; 4];
    let bid = Bid {
        looked: 0,
        best: None,
        runner_up: 0,
    };
    let mut wanted = before.told.with_standing(carrier, Standing::Bidding(bid));
    wanted.counts.summonses = wanted.counts.summonses.saturating_add(1);
    checks.hold(Law::Summons, told == wanted)?;
    Ok(before.after(told, carrier, seen))
}

// A look alters its bid alone, which is then what all prices seen make of it.
fn after_look(
    checks: &mut Checks,
    terms: &Terms,
    before: &State,
    carrier: usize,
    told: Snapshot,
) -> Result<State, Law> {
    let seen = seen_further(terms, before, carrier);
    let wanted = before.told.with_standing(carrier, told.standing(carrier));
    checks.hold(Law::Look, told == wanted)?;
    check_found(checks, terms, &told, carrier, &seen)?;
    Ok(before.after(told, carrier, seen))
}

// A settle ends its bid by a verdict, which is carried out.
fn after_settle(
    checks: &mut Checks,
    terms: &Terms,
    before: &State,
    carrier: usize,
    verdict: Verdict,
    told: Snapshot,
) -> Result<State, Law> {
    check_found(checks, terms, &before.told, carrier, &before.seen(carrier))?;
    let bid = OpenBid {
        terms,
        state: before,
        carrier,
    };
    bid.check_verdict(checks, verdict)?;
    let wanted = carried_out(terms, &before.told, carrier, verdict);
    checks.hold(Law::CarriedOut, told == wanted)?;
    Ok(before.after(told, carrier, [None; 4]))
}

// Checks an act that was accepted with this answer, after which the hall tells this; gives the state after it.
pub(crate) fn after_act(
    checks: &mut Checks,
    terms: &Terms,
    before: &State,
    (act, carrier): (Act, usize),
    answer: Answer,
    told: Snapshot,
) -> Result<State, Law> {
    match (act, answer) {
        (Act::Summon, Answer::Accepted) => after_summons(checks, before, carrier, told),
        (Act::Look, Answer::Accepted) => after_look(checks, terms, before, carrier, told),
        (Act::Settle, Answer::Settled(verdict)) => after_settle(
            checks, terms, before, carrier, verdict, told,
        ),
        _ => Err(Law::Answer),
    }
}
