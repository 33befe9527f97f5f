//! Inside a run: it is made anew with every smaller budget, from the same calls before it. So the act of each step shows in the
//! difference of two states.
use crate::acts::{after_act, call_of};
use crate::drawn::NO_ANSWERS;
use crate::laws::{Checks, Law};
use crate::snapshot::Snapshot;
use crate::state::State;
use crate::terms::Terms;
use crate::verdicts::OpenBid;
use auction::{Act, Answer, Call, Counts, Ending, Report, Standing};
use hall::{Hall, replay};
use sources::Source;

// The calls before a run on a source, and the run's depth.
#[derive(Drop)]
pub(crate) struct Inside<'a, S: Source + Drop> {
    pub(crate) source: &'a S,
    pub(crate) terms: &'a Terms,
    pub(crate) calls: &'a [Call],
    pub(crate) depth: usize,
}

// ---- which act a step was

// Whether this is an open bid.
fn is_open(standing: Standing) -> bool {
    matches!(standing, Standing::Bidding(_))
}

// How many bids have ended.
fn ended(counts: Counts) -> u64 {
    counts
        .awards
        .saturating_add(counts.stales)
        .saturating_add(counts.outs)
}

// The act between two states that are one step apart, and its carrier. A summons opens a bid, a settle ends one, and a look alters one.
fn act_between(before: &Snapshot, after: &Snapshot) -> Option<(Act, usize)> {
    let mut pairs = before.standings.iter().zip(&after.standings);
    if after.counts.summonses > before.counts.summonses {
        let opened = pairs.position(|(old, new)| !is_open(*old) && is_open(*new));
        return Some((Act::Summon, opened?));
    }
    if ended(after.counts) > ended(before.counts) {
        let closed = pairs.position(|(old, new)| is_open(*old) && !is_open(*new));
        return Some((Act::Settle, closed?));
    }
    let altered = pairs.position(|(old, new)| is_open(*old) && old != new);
    Some((Act::Look, altered?))
}

// ---- whose turn it is

// Since which step each carrier waits, or at which it acted last. Who waited or had an open bid before the run counts in the order of
// the carrier numbers.
#[derive(Drop)]
struct Turns {
    depth: usize,
    begun_with: usize,
    since: [u64; 4],
}

impl Turns {
    fn new(depth: usize, before: &Snapshot) -> Turns {
        Turns {
            depth,
            begun_with: before.bidding(),
            since: [0, 1, 2, 3],
        }
    }

    // A carrier comes before all others of these; nothing is checked if there is no other.
    fn check_first(
        &self,
        checks: &mut Checks,
        law: Law,
        carrier: usize,
        among: &[bool; 4],
    ) -> Result<(), Law> {
        let own = self.since.get(carrier).copied().unwrap_or(0);
        for (other, (since, is_among)) in self.since.iter().zip(among).enumerate() {
            if other != carrier && *is_among {
                checks.hold(law, own < *since)?;
            }
        }
        Ok(())
    }

    // A step is a summons exactly if somebody waits and the depth leaves room; who waits longest is summoned, and else who acted the
    // longest ago acts.
    fn check_act(
        &self,
        checks: &mut Checks,
        before: &Snapshot,
        (act, carrier): (Act, usize),
    ) -> Result<(), Law> {
        let has_room = before.waiting() > 0 && before.bidding() < self.depth;
        checks.hold(Law::SummonsFirst, (act == Act::Summon) == has_room)?;
        if act == Act::Summon {
            self.check_first(checks, Law::Line, carrier, &before.who_waits())
        } else {
            self.check_first(checks, Law::Flight, carrier, &before.who_bids())
        }
    }

    // Notes a step: its carrier acted, and who waits now and did not before begins to wait.
    fn note(&mut self, step: u64, carrier: usize, before: &Snapshot, after: &Snapshot) {
        let now = step.saturating_add(4);
        for (other, since) in self.since.iter_mut().enumerate() {
            if other == carrier || (after.waits(other) && !before.waits(other)) {
                *since = now;
            }
        }
    }

    // Whether the run is the sequential auction: at depth 1, begun with no open bid.
    fn is_sequential(&self) -> bool {
        self.depth == 1 && self.begun_with == 0
    }
}

// ---- the acts one by one

// The next act of the sequential auction: where no bid is open a summons, and else the open bid looks, or it settles by the sequential
// rule once its whole row is looked at.
fn check_round(
    checks: &mut Checks,
    terms: &Terms,
    before: &State,
    (act, carrier): (Act, usize),
    answer: Answer,
) -> Result<(), Law> {
    let wanted = match before.told.standing(carrier) {
        Standing::Bidding(bid) if bid.looked < terms.entries(carrier) => Act::Look,
        Standing::Bidding(_) => Act::Settle,
        _ => Act::Summon,
    };
    let alone = wanted != Act::Summon || before.told.bidding() == 0;
    checks.hold(Law::Rounds, act == wanted && alone)?;
    let Answer::Settled(verdict) = answer else {
        return Ok(());
    };
    let bid = OpenBid {
        terms,
        state: before,
        carrier,
    };
    bid.check_sequential(checks, verdict)
}

impl<S: Source + Drop> Inside<'_, S> {
    // A new hall after the calls before the run.
    fn hall_before(&self) -> Hall<&S> {
        let mut answers = NO_ANSWERS;
        replay(self.source, self.calls, &mut answers).0
    }

    // What the hall tells after a run with a smaller budget, which makes as many steps as that.
    fn told_after(&self, checks: &mut Checks, steps: u64) -> Result<Snapshot, Law> {
        let mut hall = self.hall_before();
        let made = hall.run(self.depth, steps).map(|report| report.steps);
        checks.hold(Law::Steps, made == Ok(steps))?;
        Snapshot::ask(&hall, self.terms).map_err(|_| Law::Answer)
    }

    // Makes the next act on a hall that has made those before it, and checks it. `told` is what the run's own hall tells after it.
    fn make_act(
        &self,
        checks: &mut Checks,
        hall: &mut Hall<&S>,
        turns: &Turns,
        before: &State,
        told: Snapshot,
    ) -> Result<(State, usize), Law> {
        let (act, carrier) = act_between(&before.told, &told).ok_or(Law::Steps)?;
        turns.check_act(checks, &before.told, (act, carrier))?;
        let answer = hall
            .perform(call_of(act, carrier))
            .map_err(|_| Law::MadeOf)?;
        checks.hold(Law::MadeOf, Snapshot::ask(hall, self.terms) == Ok(told))?;
        if turns.is_sequential() {
            check_round(checks, self.terms, before, (act, carrier), answer)?;
        }
        let after = after_act(checks, self.terms, before, (act, carrier), answer, told)?;
        let most = self.depth.max(turns.begun_with);
        checks.hold(Law::Narrow, told.bidding() <= most)?;
        Ok((after, carrier))
    }

    // Looks inside a run of so many steps; gives the state after it.
    pub(crate) fn after_run(
        &self,
        checks: &mut Checks,
        before: &State,
        steps: u64,
    ) -> Result<State, Law> {
        let mut hall = self.hall_before();
        let mut turns = Turns::new(self.depth, &before.told);
        let mut state = *before;
        let told = self.told_after(checks, 0)?;
        checks.hold(Law::Steps, told == before.told)?;
        for step in 1..=steps {
            let told = self.told_after(checks, step)?;
            let (after, carrier) = self.make_act(checks, &mut hall, &turns, &state, told)?;
            turns.note(step, carrier, &state.told, &told);
            state = after;
        }
        Ok(state)
    }
}

// ---- reports

// What one count, and what a run tells of it, make after the run.
fn adds_up(before: u64, told: u64, after: u64) -> bool {
    before.checked_add(told) == Some(after)
}

// A run is done exactly if nobody waits or bids after it, and spent only if its steps equal the budget. It counts what the hall's counts
// moved by, and each took a step of its own. At depth 1, begun with no open bid, no bid is stale.
pub(crate) fn is_report_right(
    before: &Snapshot,
    after: &Snapshot,
    (depth, budget): (usize, u64),
    report: Report,
) -> bool {
    let Report {
        steps,
        counts: told,
        ending,
    } = report;
    let is_over = after.waiting() == 0 && after.bidding() == 0;
    let is_sequential = depth == 1 && before.bidding() == 0;
    let (old, new) = (before.counts, after.counts);
    (ending == Ending::Done) == is_over
        && (steps == budget || (ending == Ending::Done && steps < budget))
        && ended(told).saturating_add(told.summonses) <= steps
        && adds_up(old.summonses, told.summonses, new.summonses)
        && adds_up(old.awards, told.awards, new.awards)
        && adds_up(old.stales, told.stales, new.stales)
        && adds_up(old.outs, told.outs, new.outs)
        && (told.stales == 0 || !is_sequential)
}
