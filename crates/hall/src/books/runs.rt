//! Run, on books and the source that they were started for.
ghost use Rattle.std.specs.Prelude.{◌≡◌, ◌+◌, ◌<◌, ◌≤◌, true, [], ◌∷◌, length, Some, IfOk};
ghost use Rattle.rings.specs.Held.{held};
ghost use Rattle.auction.specs.Standings.{looks_for};
ghost use Rattle.auction.specs.Runs.{since, beginning, waits_after, first_acts, step_by, one_step, many_steps, Reports, run_answer, run_tally};
ghost use Rattle.sources.specs.Limits.{most_carriers, most_jobs};
ghost use Rattle.auction.specs.Limits.{most_lanes};
ghost use Rattle.auction.specs.InOrder.{Ordered, Grown};
ghost use Rattle.hall.specs.InBooks.{NotedOf, tally_in};
ghost use Rattle.hall.specs.Obeys.{Obeys};
ghost use Rattle.hall.specs.RunSteps.{state_of, StepMade};

use super::Books;
use super::queues::Queues;
use auction::{Counts, GREATEST_DEPTH, InFlight, Report, Standing, Verdict};
use refusals::Refusal;
use sources::{MOST_CARRIERS, Source, row_length};

// How many looks go through so many entries.
fn looks_for(lanes: usize, entries: usize) -> usize
    requires some { 1 ≤ lanes }
    requires few { lanes ≤ most_lanes }
    requires short { entries ≤ most_jobs }
    ensures { result ≡ looks_for lanes entries }
{
    // Most rows of small sheets go through one look: a division takes longer than the test.
    if entries <= lanes {
        usize::from(entries > 0)
    } else {
        (entries + (lanes - 1)) / lanes
    }
}

// What was counted between two counts.
fn since(before: Counts, after: Counts) -> Counts
    requires { Grown before after }
    ensures { result ≡ since before after }
{
    Counts {
        summonses: after.summonses - before.summonses,
        awards: after.awards - before.awards,
        stales: after.stales - before.stales,
        outs: after.outs - before.outs,
    }
}

// The carrier that waits after this one has settled.
fn waits_after(carrier: usize, verdict: Verdict) -> Option<usize>
    ensures { result ≡ waits_after carrier verdict }
{
    match verdict {
        Verdict::Out => None,
        Verdict::Stale => Some(carrier),
        Verdict::Awarded(award) => award.displaced,
    }
}

impl Books {
    // Summons a carrier that was first in line, and is then last in flight.
    fn summon_first<S: Source>(&mut self, source: &S, carrier: usize, queues: &mut Queues<'_>)
        requires noted { NotedOf (S.meaning source.now) self.old }
        requires place { length (held queues.old.flight) < most_carriers }
        ensures { let m = S.meaning source.now in let line = held queues.old.line in let flight = held queues.old.flight in
            StepMade m (λ n. step_by m true (carrier ∷ line) flight (tally_in self.old) n) self.new queues.new }
    {
        let looks_left = looks_for(self.lanes, row_length(source, carrier));
        let _ = self.summon(source, carrier);
        queues.join_flight(carrier, looks_left);
    }

    // A carrier that was first in flight acts: it looks if it has looks left, and is then last in flight; or else it settles, and
    // whoever waits because of that is last in line.
    fn first_acts<S: Source>(&mut self, source: &S, first: InFlight, queues: &mut Queues<'_>)
        requires noted { NotedOf (S.meaning source.now) self.old }
        requires line_place { length (held queues.old.line) < most_carriers }
        requires flight_place { length (held queues.old.flight) < most_carriers }
        ensures { let m = S.meaning source.now in let line = held queues.old.line in let flight = held queues.old.flight in
            StepMade m (λ n. first_acts m first.carrier first.looks_left line flight (tally_in self.old) n) self.new queues.new }
    {
        if first.looks_left > 0 {
            self.look_in_flight(source, first.carrier);
            queues.join_flight(first.carrier, first.looks_left - 1);
            return;
        }
        if let Ok(verdict) = self.settle(source, first.carrier) {
            if let Some(carrier) = waits_after(first.carrier, verdict) {
                queues.join_line(carrier);
            }
        }
    }

    // One step: the carrier first in line is summoned, if there is one and the depth leaves room in flight; or else the carrier first
    // in flight acts.
    fn step<S: Source>(&mut self, source: &S, depth: usize, queues: &mut Queues<'_>)
        requires noted { NotedOf (S.meaning source.now) self.old }
        requires ordered { Ordered (S.meaning source.now) (state_of self.old queues.old 0) }
        requires busy { 0 < length (held queues.old.line) + length (held queues.old.flight) }
        requires deep { 1 ≤ depth }
        ensures { let m = S.meaning source.now in
            StepMade m (λ n. one_step m depth (state_of self.old queues.old n)) self.new queues.new }
    {
        if let Some(carrier) = queues.next_to_summon(depth) {
            self.summon_first(source, carrier, queues);
        } else if let Some(first) = queues.next_to_act() {
            self.first_acts(source, first, queues);
        }
    }

    // Puts everybody who waits in line and everybody who bids in flight, both in the order of the carrier numbers.
    fn begin<S: Source>(&self, source: &S, queues: &mut Queues<'_>)
        requires noted { NotedOf (S.meaning source.now) self.now }
        requires nobody_waits { held queues.old.line ≡ [] }
        requires nobody_bids { held queues.old.flight ≡ [] }
        ensures { state_of self.now queues.new 0 ≡ beginning (S.meaning source.now) (tally_in self.now) }
    {
        for (carrier, standing) in self.standings[..self.noted.carriers].iter().enumerate() {
            match *standing {
                Standing::Waiting => queues.join_line(carrier),
                Standing::Bidding(bid) => {
                    let entries = row_length(source, carrier).saturating_sub(bid.looked);
                    queues.join_flight(carrier, looks_for(self.lanes, entries));
                }
                _ => {}
            }
        }
    }

    // Steps until nobody is in line or flight, or the budget is used up; gives the number of steps.
    fn make_steps<S: Source>(
        &mut self,
        source: &S,
        depth: usize,
        budget: u64,
        queues: &mut Queues<'_>,
    ) -> u64
        requires noted { NotedOf (S.meaning source.now) self.old }
        requires ordered { Ordered (S.meaning source.now) (state_of self.old queues.old 0) }
        requires deep { 1 ≤ depth }
        ensures noted { NotedOf (S.meaning source.now) self.new }
        ensures made { let m = S.meaning source.now in
            state_of self.new queues.new result ≡ many_steps m depth budget (state_of self.old queues.old 0) }
        ensures ordered { Ordered (S.meaning source.now) (state_of self.new queues.new 0) }
        ensures grown { Grown self.old.counts self.new.counts }
    {
        for made in 0..budget {
            if queues.is_idle() {
                return made;
            }
            self.step(source, depth, queues);
        }
        budget
    }

    #[tactic(auto, unfolding(auction::specs::Runs::ran))]
    pub(crate) fn run<S: Source>(
        &mut self,
        source: &S,
        depth: usize,
        budget: u64,
    ) -> Result<Report, Refusal>
        requires { NotedOf (S.meaning source.now) self.old }
        ensures noted { NotedOf (S.meaning source.now) self.new }
        ensures ruled { let m = S.meaning source.now in
            Obeys (run_answer depth budget) (run_tally depth budget) m (Some self.old) (Some self.new) result }
        ensures reported { IfOk result (λ p. Reports budget (tally_in self.old) (tally_in self.new) p) }
    {
        if !(1..=GREATEST_DEPTH).contains(&depth) {
            return Err(Refusal::DepthOutside);
        }
        let before = self.counts;
        let nobody = InFlight {
            carrier: 0,
            looks_left: 0,
        };
        let mut line_places = [0; MOST_CARRIERS];
        let mut flight_places = [nobody; MOST_CARRIERS];
        let mut queues = Queues::new(&mut line_places, &mut flight_places);
        self.begin(source, &mut queues);
        let steps = self.make_steps(source, depth, budget, &mut queues);
        Ok(Report {
            steps,
            counts: since(before, self.counts),
            ending: queues.ending(),
        })
    }
}
