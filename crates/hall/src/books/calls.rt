//! The calls, on books and the source that they were started for.
ghost use Rattle.std.specs.Prelude.{◌≡◌, ℕ, ◌+◌, ◌^◌, ◌<◌, ◌≤◌, false, length, take, is_ok, Some, None, OnOk, slice_index};
ghost use Rattle.sources.specs.Limits.{most_carriers, most_jobs, highest_ceiling};
ghost use Rattle.sources.specs.Meaning.{row_of, entry_at};
ghost use Rattle.auction.specs.Bids.{looked_on, judged, best_worth};
ghost use Rattle.auction.specs.Consistent.{Limits};
ghost use Rattle.auction.specs.Limits.{highest_step};
ghost use Rattle.auction.specs.Looks.{Looks};
ghost use Rattle.auction.specs.Rules.{tally_at_start, start_answer, bid_at, called, summon_answer, summon_tally, look_answer, look_tally, freed, verdict_in, ended, settle_answer, settle_tally};
ghost use Rattle.auction.specs.Standings.{BidSound, StandingSound};
ghost use Rattle.auction.specs.Tally.{standing_at};
ghost use Rattle.hall.specs.Glances.{lasts, wins_ties, follows};
ghost use Rattle.hall.specs.InBooks.{NotedOf, tally_in};
ghost use Rattle.hall.specs.Obeys.{Obeys};
ghost use Rattle.hall.specs.Steps.{counts_after, standing_after, counts_ended, standing_ended, bid_from};

use super::Books;
use super::glance::Glance;
use crate::ranking::{Ranked, best_worth, merged};
use auction::{Act, Award, Bid, Counts, HIGHEST_STEP, Held, MOST_LANES, Standing, Verdict};
use refusals::Refusal;
use sources::{Heading, MOST_CARRIERS, MOST_JOBS, Source, heading_of, row_length, within_limits};

pub(crate) fn check_start<S: Source>(source: &S, step: u64, lanes: usize) -> Result<(), Refusal>
    ensures { result ≡ start_answer step lanes (S.meaning source.now) }
{
    if !within_limits(heading_of(source)) {
        Err(Refusal::CountsOutside)
    } else if !(1..=HIGHEST_STEP).contains(&step) {
        Err(Refusal::StepOutside)
    } else if !(1..=MOST_LANES).contains(&lanes) {
        Err(Refusal::LanesOutside)
    } else {
        Ok(())
    }
}

// Looks at the next entries of the carrier's row, as many as there are lanes, or as many as are left. Inlined: out of line it would
// ask for the row's place again.
#[inline(always)]
fn look_on<S: Source>(
    source: &S,
    prices: &[u64; MOST_JOBS],
    lanes: usize,
    carrier: usize,
    entries: usize,
    bid: &mut Bid,
)
    requires few_jobs { (S.meaning source.now).jobs ≤ most_jobs }
    requires low_prices { (j : ℕ) → slice_index (take (S.meaning source.now).jobs prices.now) j ≤ 2 ^ 37 }
    requires sound { BidSound most_jobs highest_ceiling bid.old.runner_up bid.old.best }
    requires long { entries ≡ length (row_of (S.meaning source.now) carrier) }
    requires inside { bid.old.looked ≤ entries }
    ensures { let m = S.meaning source.now in bid.new ≡ looked_on lanes (take m.jobs prices.now) (row_of m carrier) bid.old }
{
    let count = lanes.min(entries - bid.looked);
    let glance = source.visit(carrier, bid.looked, count, Glance::new(prices, *bid));
    if glance.found() {
        *bid = Bid {
            looked: bid.looked + count,
            best: Some(glance.best()),
            runner_up: glance.runner_up(),
        };
    } else if best_lasts(source, carrier, bid, &glance) {
        bid.looked += count;
        bid.runner_up = glance.runner_up();
    } else {
        look_closely(source, prices, count, carrier, bid);
    }
}

// Whether a bid's best is the best still, after a part of the row in which the glance found none.
fn best_lasts<S: Source>(source: &S, carrier: usize, bid: &Bid, glance: &Glance<'_>) -> bool
    ensures { result ≡ lasts glance.now (entry_at (S.meaning source.now) carrier bid.now.looked) bid.now.best }
{
    glance.leads() || wins_ties(source, carrier, bid)
}

// Whether a bid's best, with a net above 0, is better than later entries of the same net: of equal nets the smaller job is the better,
// and jobs rise along a row. Cold and not inlined, as `look_closely` is, since few looks ask: together the others take 1.6 instructions
// an entry less for it.
#[cold]
#[inline(never)]
fn wins_ties<S: Source>(source: &S, carrier: usize, bid: &Bid) -> bool
    ensures { result ≡ wins_ties (entry_at (S.meaning source.now) carrier bid.now.looked) bid.now.best }
{
    match bid.best {
        Some(best) if best.net > 0 => follows(best.job, source.entry(carrier, bid.looked)),
        _ => false,
    }
}

// Whether an entry is there and its job is above this one.
fn follows(job: usize, next: Option<(usize, u64)>) -> bool
    ensures { result ≡ follows job next }
{
    match next {
        Some((later, _)) => job < later,
        None => false,
    }
}

// Looks at so many entries one by one, whatever the nets are: for the few looks that a glance does not tell.
#[cold]
#[inline(never)]
fn look_closely<S: Source>(
    source: &S,
    prices: &[u64; MOST_JOBS],
    count: usize,
    carrier: usize,
    bid: &mut Bid,
)
    requires few_jobs { (S.meaning source.now).jobs ≤ most_jobs }
    requires low_prices { (j : ℕ) → slice_index (take (S.meaning source.now).jobs prices.now) j ≤ 2 ^ 37 }
    requires inside { bid.old.looked + count ≤ length (row_of (S.meaning source.now) carrier) }
    ensures { let m = S.meaning source.now in bid.new ≡ looked_on count (take m.jobs prices.now) (row_of m carrier) bid.old }
{
    let mut seen = Ranked::nothing();
    for place in bid.looked..bid.looked + count {
        let (job, worth) = source.entry(carrier, place).unwrap_or((0, 0));
        seen = seen.and(job, worth, prices[job]);
    }
    *bid = merged(*bid, count, seen);
}

// What a carrier's standing and the call together lead to: the bid that the call begins, carries on or finds ready to be judged.
// One standing is lent to be changed, so that no other can be; the match is on it and the act together, so that each pair has its place.
#[inline(always)]
fn respond<S: Source>(
    source: &S,
    prices: &[u64; MOST_JOBS],
    lanes: usize,
    carrier: usize,
    standing: &mut Standing,
    counts: &mut Counts,
    act: Act,
) -> Result<Bid, Refusal>
    requires few_jobs { (S.meaning source.now).jobs ≤ most_jobs }
    requires low_prices { (j : ℕ) → slice_index (take (S.meaning source.now).jobs prices.now) j ≤ 2 ^ 37 }
    requires sound { StandingSound most_jobs highest_ceiling standing.old }
    requires few_summonses { counts.old.summonses ≤ 2 ^ 53 }
    ensures answered { result ≡ bid_from (S.meaning source.now) lanes prices.now carrier standing.old act }
    ensures stood { standing.new ≡ standing_after standing.old result }
    ensures numbered { counts.new ≡ counts_after act counts.old result }
{
    match (&mut *standing, act) {
        (Standing::Waiting, Act::Summon) => {
            let bid = Bid {
                looked: 0,
                best: None,
                runner_up: 0,
            };
            *standing = Standing::Bidding(bid);
            counts.summonses += 1;
            Ok(bid)
        }
        (Standing::Bidding(bid), Act::Look) => {
            let entries = row_length(source, carrier);
            if bid.looked >= entries {
                return Err(Refusal::RowLookedAt);
            }
            look_on(source, prices, lanes, carrier, entries, bid);
            Ok(*bid)
        }
        (Standing::Bidding(bid), Act::Settle) => {
            if bid.looked < row_length(source, carrier) {
                return Err(Refusal::RowNotLookedAt);
            }
            Ok(*bid)
        }
        (Standing::Bidding(_) | Standing::Served(_) | Standing::Out, Act::Summon) => {
            Err(Refusal::NotWaiting)
        }
        (Standing::Waiting | Standing::Served(_) | Standing::Out, Act::Look | Act::Settle) => {
            Err(Refusal::NoOpenBid)
        }
    }
}

// What becomes of a bid at these prices.
fn judge(
    step: u64,
    prices: &[u64; MOST_JOBS],
    holders: &[Option<usize>; MOST_JOBS],
    bid: Bid,
) -> Verdict
    requires low_step { step ≤ highest_step }
    requires sound { BidSound most_jobs highest_ceiling bid.runner_up bid.best }
    ensures { result ≡ judged step prices.now holders.now bid }
{
    let Some(best) = bid.best else {
        return Verdict::Out;
    };
    if best.net <= 0 {
        return Verdict::Out;
    }
    let price = best.worth - bid.runner_up + step;
    if price <= prices[best.job] {
        return Verdict::Stale;
    }
    Verdict::Awarded(Award {
        job: best.job,
        price,
        displaced: holders[best.job],
    })
}

// Ends a carrier's bid. Its standing alone is lent to be changed.
fn conclude(
    step: u64,
    prices: &[u64; MOST_JOBS],
    holders: &[Option<usize>; MOST_JOBS],
    bid: Bid,
    standing: &mut Standing,
    counts: &mut Counts,
) -> Verdict
    requires low_step { step ≤ highest_step }
    requires sound { BidSound most_jobs highest_ceiling bid.runner_up bid.best }
    requires few_awards { counts.old.awards ≤ 2 ^ 52 }
    requires few_stales { counts.old.stales ≤ 2 ^ 52 }
    requires few_outs { counts.old.outs ≤ 2 ^ 52 }
    ensures answered { result ≡ judged step prices.now holders.now bid }
    ensures stood { standing.new ≡ standing_ended (best_worth bid.best) result }
    ensures numbered { counts.new ≡ counts_ended counts.old result }
{
    let verdict = judge(step, prices, holders, bid);
    match verdict {
        Verdict::Out => {
            *standing = Standing::Out;
            counts.outs += 1;
        }
        Verdict::Stale => {
            *standing = Standing::Waiting;
            counts.stales += 1;
        }
        Verdict::Awarded(award) => {
            *standing = Standing::Served(Held {
                job: award.job,
                worth: best_worth(bid),
            });
            counts.awards += 1;
        }
    }
    verdict
}

// A carrier that lost its job waits.
fn free(standings: &mut [Standing; MOST_CARRIERS], former: Option<usize>)
    requires { (i : ℕ) → former ≡ Some i → i < most_carriers }
    ensures { standings.new ≡ freed standings.old former }
{
    if let Some(former) = former {
        standings[former] = Standing::Waiting;
    }
}

impl Books {
    // Every price is 0, nobody holds a job, every carrier waits, and every count is 0.
    pub(crate) fn new(heading: Heading, step: u64, lanes: usize) -> Self
        requires { Limits heading.carriers heading.jobs heading.ceiling step lanes }
        ensures noted { result.noted ≡ heading }
        ensures tallied { tally_in result ≡ tally_at_start heading.carriers heading.jobs step lanes }
    {
        Books {
            noted: heading,
            step,
            lanes,
            prices: [0; MOST_JOBS],
            holders: [None; MOST_JOBS],
            standings: [Standing::Waiting; MOST_CARRIERS],
            counts: Counts::default(),
        }
    }

    // Calls on a carrier, whose standing is lent to be changed. A bid that settles is still open after.
    #[inline(always)]
    #[tactic(auto, unfolding(auction::specs::Rules::bid_at))]
    fn call_on<S: Source>(&mut self, source: &S, carrier: usize, act: Act) -> Result<Bid, Refusal>
        requires { NotedOf (S.meaning source.now) self.old }
        ensures noted { self.new.noted ≡ self.old.noted }
        ensures answered { result ≡ bid_at (S.meaning source.now) carrier act (tally_in self.old) }
        ensures tallied { tally_in self.new ≡ called (S.meaning source.now) carrier act (tally_in self.old) }
        ensures refused { is_ok result ≡ false → self.new ≡ self.old }
    {
        if carrier >= self.noted.carriers {
            return Err(Refusal::NoSuchCarrier);
        }
        respond(
            source,
            &self.prices,
            self.lanes,
            carrier,
            &mut self.standings[carrier],
            &mut self.counts,
            act,
        )
    }

    pub(crate) fn summon<S: Source>(&mut self, source: &S, carrier: usize) -> Result<(), Refusal>
        requires { NotedOf (S.meaning source.now) self.old }
        ensures noted { self.new.noted ≡ self.old.noted }
        ensures ruled { Obeys (summon_answer carrier) (summon_tally carrier) (S.meaning source.now) (Some self.old) (Some self.new) result }
    {
        self.call_on(source, carrier, Act::Summon)?;
        Ok(())
    }

    pub(crate) fn look<S: Source>(&mut self, source: &S, carrier: usize) -> Result<(), Refusal>
        requires { NotedOf (S.meaning source.now) self.old }
        ensures noted { self.new.noted ≡ self.old.noted }
        ensures ruled { Obeys (look_answer carrier) (look_tally carrier) (S.meaning source.now) (Some self.old) (Some self.new) result }
        ensures looks { OnOk result (Looks (S.meaning source.now) carrier (tally_in self.old) (tally_in self.new)) }
    {
        self.call_on(source, carrier, Act::Look)?;
        Ok(())
    }

    // A look of a run, which reads no answer. Not inlined: a run's loop would take registers from the look's.
    #[inline(never)]
    pub(super) fn look_in_flight<S: Source>(&mut self, source: &S, carrier: usize)
        requires { NotedOf (S.meaning source.now) self.old }
        ensures noted { self.new.noted ≡ self.old.noted }
        ensures tallied { tally_in self.new ≡ called (S.meaning source.now) carrier Act.Look (tally_in self.old) }
    {
        let _ = self.call_on(source, carrier, Act::Look);
    }

    // Ends the bid of a carrier, whose standing is lent to be changed; of the others it changes only that of who loses a job.
    fn end(&mut self, carrier: usize, bid: Bid) -> Verdict
        requires known { carrier < self.old.noted.carriers }
        requires bidding { standing_at (tally_in self.old) carrier ≡ Standing.Bidding bid }
        ensures noted { self.new.noted ≡ self.old.noted }
        ensures answered { result ≡ verdict_in (tally_in self.old) bid }
        ensures tallied { tally_in self.new ≡ ended carrier bid (tally_in self.old) }
    {
        let verdict = conclude(
            self.step,
            &self.prices,
            &self.holders,
            bid,
            &mut self.standings[carrier],
            &mut self.counts,
        );
        if let Verdict::Awarded(award) = verdict {
            self.prices[award.job] = award.price;
            self.holders[award.job] = Some(carrier);
            free(&mut self.standings, award.displaced);
        }
        verdict
    }

    #[inline(always)]
    pub(crate) fn settle<S: Source>(
        &mut self,
        source: &S,
        carrier: usize,
    ) -> Result<Verdict, Refusal>
        requires { NotedOf (S.meaning source.now) self.old }
        ensures noted { self.new.noted ≡ self.old.noted }
        ensures ruled { Obeys (settle_answer carrier) (settle_tally carrier) (S.meaning source.now) (Some self.old) (Some self.new) result }
    {
        let bid = self.call_on(source, carrier, Act::Settle)?;
        Ok(self.end(carrier, bid))
    }
}
