//! What has to hold of an auction after each call: the pairing, beside a search through all pairings, the prices and the counts.
use crate::laws::{Checks, Law};
use crate::snapshot::Snapshot;
use crate::state::State;
use crate::terms::Terms;
use auction::{Held, Standing};
use grids::Grid;

// What the served carriers' jobs are worth to them, by these worths.
fn pairing_worth(told: &Snapshot, grid: &Grid) -> u64 {
    let mut worth = 0u64;
    for (carrier, standing) in told.standings.iter().enumerate() {
        if let Standing::Served(held) = *standing {
            worth = worth.saturating_add(grid.worth(carrier, held.job));
        }
    }
    worth
}

// How many carriers are served.
fn served(told: &Snapshot) -> u64 {
    let served = told
        .standings
        .iter()
        .filter(|standing| matches!(standing, Standing::Served(_)));
    served.count() as u64
}

// A job's holder is served with it, and a job without one costs nothing.
fn check_jobs(checks: &mut Checks, told: &Snapshot) -> Result<(), Law> {
    for (job, (holder, price)) in told.holders.iter().zip(&told.prices).enumerate() {
        let holds = match *holder {
            None => *price == 0,
            Some(carrier) => match told.standing(carrier) {
                Standing::Served(held) => held.job == job,
                _ => false,
            },
        };
        checks.hold(Law::Pairing, holds)?;
    }
    Ok(())
}

// A served carrier is told as the holder of its job, and what that job is worth to it, which is within one step of its best net at
// the prices now, and of 0.
fn check_served(
    checks: &mut Checks,
    terms: &Terms,
    state: &State,
    carrier: usize,
    held: Held,
) -> Result<(), Law> {
    let told = &state.told;
    let worth = terms.grid.worth(carrier, held.job);
    let is_holder = told.holder(held.job) == Some(carrier);
    checks.hold(Law::Pairing, is_holder && worth > 0 && held.worth == worth)?;
    let price = told.price(held.job);
    let most = worth.saturating_add(state.step);
    let no_better = |job| {
        terms.grid.worth(carrier, job).saturating_add(price) <= most.saturating_add(told.price(job))
    };
    checks.hold(Law::Slack, price <= most && (0..4).all(no_better))
}

// Who is out would gain nothing at the prices now.
fn check_out(
    checks: &mut Checks,
    terms: &Terms,
    told: &Snapshot,
    carrier: usize,
) -> Result<(), Law> {
    let gains_nothing = |job| terms.grid.worth(carrier, job) <= told.price(job);
    checks.hold(Law::LeftOut, (0..4).all(gains_nothing))
}

// What holds of the carriers that are served or out.
fn check_carriers(checks: &mut Checks, terms: &Terms, state: &State) -> Result<(), Law> {
    let standings = state.told.standings.iter().take(terms.grid.carriers);
    for (carrier, standing) in standings.enumerate() {
        match *standing {
            Standing::Served(held) => check_served(checks, terms, state, carrier, held)?,
            Standing::Out => check_out(checks, terms, &state.told, carrier)?,
            Standing::Waiting | Standing::Bidding(_) => {}
        }
    }
    Ok(())
}

// The bounds on counts, and the balance.
fn check_counts(checks: &mut Checks, terms: &Terms, state: &State) -> Result<(), Law> {
    let counts = state.told.counts;
    let ended = counts
        .awards
        .saturating_add(counts.stales)
        .saturating_add(counts.outs);
    let open = state.told.bidding() as u64;
    let highest_price = terms.grid.ceiling.saturating_add(state.step);
    let most_awards = (terms.grid.jobs as u64).saturating_mul(highest_price);
    let others = (terms.grid.carriers as u64).saturating_sub(1);
    let most_stales = others.saturating_mul(counts.awards);
    checks.hold(Law::Balance, counts.summonses == ended.saturating_add(open))?;
    checks.hold(Law::FewAwards, counts.awards <= most_awards)?;
    checks.hold(Law::FewStales, counts.stales <= most_stales)
}

// Whether the factor is above carriers times step, so that no rival is worth more below the times layer.
fn is_exact(terms: &Terms, state: &State) -> bool {
    terms.factor > state.step.saturating_mul(terms.grid.carriers as u64)
}

// Whether no pairing of the carriers served or out is worth more than the hall's, counted below the times layer.
fn is_best_below(terms: &Terms, told: &Snapshot) -> bool {
    terms.below.only(&told.done()).best() == pairing_worth(told, &terms.below)
}

// No rival pairing of the carriers served or out is worth more than the hall's and a step for each served. Nothing is checked where
// nobody is served.
fn check_rivals(checks: &mut Checks, terms: &Terms, state: &State) -> Result<(), Law> {
    let told = &state.told;
    checks.hold(Law::Worth, told.worth == pairing_worth(told, &terms.grid))?;
    if served(told) == 0 {
        return Ok(());
    }
    let most = told
        .worth
        .saturating_add(state.step.saturating_mul(served(told)));
    checks.hold(Law::Rival, terms.grid.only(&told.done()).best() <= most)?;
    if is_exact(terms, state) {
        checks.hold(Law::Exact, is_best_below(terms, told))?;
    }
    Ok(())
}

// All of this.
pub(crate) fn check_state(checks: &mut Checks, terms: &Terms, state: &State) -> Result<(), Law> {
    check_jobs(checks, &state.told)?;
    check_carriers(checks, terms, state)?;
    check_counts(checks, terms, state)?;
    check_rivals(checks, terms, state)
}

// After a spent run too no pairing of the carriers served or out is worth more.
pub(crate) fn check_spent(checks: &mut Checks, terms: &Terms, state: &State) -> Result<(), Law> {
    if served(&state.told) > 0 && is_exact(terms, state) {
        checks.hold(Law::ExactWhenSpent, is_best_below(terms, &state.told))?;
    }
    Ok(())
}
