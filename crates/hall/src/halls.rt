//! The hall and its calls.
ghost use Rattle.std.specs.Prelude.{◌≡◌, false, is_ok, IfOk, IfErr, Some, None, OnOk};
ghost use Rattle.hall.specs.declared.books.Books.{Books};
ghost use Rattle.hall.specs.InBooks.{NotedOf, Between, tally_of};
ghost use Rattle.hall.specs.Obeys.{Obeys};
ghost use Rattle.auction.specs.Looks.{Looks};
ghost use Rattle.auction.specs.Rules.{start_answer, start_tally, summon_answer, summon_tally, look_answer, look_tally, settle_answer, settle_tally};
ghost use Rattle.auction.specs.Runs.{Reports, run_answer, run_tally};
ghost use Rattle.auction.specs.MadeOf.{MadeOf};
ghost use Rattle.auction.specs.Reached.{Reached, LawsHold};
ghost use Rattle.auction.specs.Calls.{price_answer, holder_answer, standing_answer, worth_answer, counts_answer, answer_to, tally_by};

use crate::books::Books;
use crate::books::calls::check_start;
use auction::{Answer, Call, Counts, Report, Standing, Verdict};
use refusals::Refusal;
use sources::{Source, heading_of};

/// An auction over a source that it owns, any source. Before its first start it has no books. Every call answers as its rule says,
/// leaves the tally that the rule says, and leaves the source as it was; a refused call leaves the books as they were.
#[derive(Drop)]
pub struct Hall<S: Source> {
    source: S,
    books: Option<Books>,
    ghost faithful: { (b : Books) → books ≡ Some b → NotedOf (S.Source.meaning source) b },
    // Nothing but calls leads to the tally.
    ghost reached: { Reached (S.Source.meaning source) (tally_of books) },
}

impl<S: Source> Hall<S> {
    /// A hall that was never started.
    pub fn new(source: S) -> Self
        ensures source_kept { result.source ≡ source }
        ensures tallied { tally_of result.books ≡ None }
    {
        Hall {
            source,
            books: None,
        }
    }

    /// Begins an auction, or begins anew: no job costs anything or has a holder, every carrier waits, and nothing is counted yet.
    /// Refused, in this order: counts of the source outside the limits, step outside 1 to 2^36, lanes outside 1 to 32.
    pub fn start(&mut self, step: u64, lanes: usize) -> Result<(), Refusal>
        ensures ruled { let m = S.meaning self.old.source in
            Obeys (λ m _. start_answer step lanes m) (start_tally step lanes) m self.old.books self.new.books result }
        ensures source_kept { self.new.source ≡ self.old.source }
    {
        check_start(&self.source, step, lanes)?;
        self.books = Some(Books::new(heading_of(&self.source), step, lanes));
        Ok(())
    }

    /// Opens a bid for a carrier that waits; none of its row is looked at yet.
    /// Refused, in this order: never started, carrier number too large, not waiting.
    pub fn summon(&mut self, carrier: usize) -> Result<(), Refusal>
        ensures ruled { let m = S.meaning self.old.source in
            Obeys (summon_answer carrier) (summon_tally carrier) m self.old.books self.new.books result }
        ensures source_kept { self.new.source ≡ self.old.source }
    {
        self.books
            .as_mut()
            .ok_or(Refusal::NeverStarted)?
            .summon(&self.source, carrier)
    }

    /// Looks further along the row of a bidding carrier, at the prices now: by as many entries as there are lanes, or to the end of
    /// the row.
    /// Refused, in this order: never started, carrier number too large, no open bid, row fully looked at.
    pub fn look(&mut self, carrier: usize) -> Result<(), Refusal>
        ensures ruled { Obeys (look_answer carrier) (look_tally carrier) (S.meaning self.old.source) self.old.books self.new.books result }
        ensures looks { OnOk result (Between (Looks (S.meaning self.old.source) carrier) self.old.books self.new.books) }
        ensures source_kept { self.new.source ≡ self.old.source }
    {
        self.books
            .as_mut()
            .ok_or(Refusal::NeverStarted)?
            .look(&self.source, carrier)
    }

    /// Ends a carrier's open bid once its whole row is looked at: out, stale or awarded.
    /// Refused, in this order: never started, carrier number too large, no open bid, entries not looked at.
    pub fn settle(&mut self, carrier: usize) -> Result<Verdict, Refusal>
        ensures ruled { let m = S.meaning self.old.source in
            Obeys (settle_answer carrier) (settle_tally carrier) m self.old.books self.new.books result }
        ensures source_kept { self.new.source ≡ self.old.source }
    {
        self.books
            .as_mut()
            .ok_or(Refusal::NeverStarted)?
            .settle(&self.source, carrier)
    }

    /// Makes summonses, looks and settles, in the order that docs/HALL.md tells ("Run"), until nobody waits or bids or the budget is
    /// used up, and answers how many steps these were and what they came to.
    /// Refused, in this order: never started, depth outside 1 to 128.
    pub fn run(&mut self, depth: usize, budget: u64) -> Result<Report, Refusal>
        ensures ruled { let m = S.meaning self.old.source in
            Obeys (run_answer depth budget) (run_tally depth budget) m self.old.books self.new.books result }
        ensures reported { IfOk result (λ p. Between (λ t u. Reports budget t u p) self.old.books self.new.books) }
        ensures made { IfOk result (λ p. Between (λ t u. MadeOf (S.meaning self.old.source) depth t u p) self.old.books self.new.books) }
        ensures source_kept { self.new.source ≡ self.old.source }
    {
        self.books
            .as_mut()
            .ok_or(Refusal::NeverStarted)?
            .run(&self.source, depth, budget)
    }

    // The books, if the hall was started. The laws hold of the tally in them.
    fn started(&self) -> Result<&Books, Refusal>
        ensures started { IfOk result (λ b. self.now.books ≡ Some b.now) }
        ensures laws { LawsHold (S.meaning self.now.source) (tally_of self.now.books) }
        ensures never { IfErr result (λ e. (e ≡ Refusal.NeverStarted) × (self.now.books ≡ None)) }
    {
        self.books.as_ref().ok_or(Refusal::NeverStarted)
    }

    /// The price of a job. Refused, in this order: never started, job number too large.
    pub fn price(&self, job: usize) -> Result<u64, Refusal>
        ensures answered { result ≡ price_answer job (S.meaning self.now.source) (tally_of self.now.books) }
        ensures laws { LawsHold (S.meaning self.now.source) (tally_of self.now.books) }
    {
        self.started()?.price(job)
    }

    /// The carrier that holds a job, if there is one. Refused as the price is.
    pub fn holder(&self, job: usize) -> Result<Option<usize>, Refusal>
        ensures answered { result ≡ holder_answer job (S.meaning self.now.source) (tally_of self.now.books) }
        ensures laws { LawsHold (S.meaning self.now.source) (tally_of self.now.books) }
    {
        self.started()?.holder(job)
    }

    /// A carrier's standing, with its unfinished bid. Refused, in this order: never started, carrier number too large.
    pub fn standing(&self, carrier: usize) -> Result<Standing, Refusal>
        ensures answered { result ≡ standing_answer carrier (S.meaning self.now.source) (tally_of self.now.books) }
        ensures laws { LawsHold (S.meaning self.now.source) (tally_of self.now.books) }
    {
        self.started()?.standing(carrier)
    }

    /// The total worth of the jobs that are held. Refused if never started.
    pub fn worth(&self) -> Result<u64, Refusal>
        ensures answered { result ≡ worth_answer (S.meaning self.now.source) (tally_of self.now.books) }
        ensures laws { LawsHold (S.meaning self.now.source) (tally_of self.now.books) }
    {
        Ok(self.started()?.worth())
    }

    /// The counts of summonses, awards, stale bids and outs. Refused if never started.
    pub fn counts(&self) -> Result<Counts, Refusal>
        ensures answered { result ≡ counts_answer (S.meaning self.now.source) (tally_of self.now.books) }
        ensures laws { LawsHold (S.meaning self.now.source) (tally_of self.now.books) }
    {
        Ok(self.started()?.counts())
    }

    /// Makes one call, and gives its answer.
    #[tactic(auto, unfolding(auction::specs::Calls::answer_to, auction::specs::Calls::tally_by))]
    pub fn perform(&mut self, call: Call) -> Result<Answer, Refusal>
        ensures answered { result ≡ answer_to (S.meaning self.old.source) (tally_of self.old.books) call }
        ensures tallied { tally_of self.new.books ≡ tally_by (S.meaning self.old.source) (tally_of self.old.books) call }
        ensures refused { is_ok result ≡ false → self.new.books ≡ self.old.books }
        ensures source_kept { self.new.source ≡ self.old.source }
    {
        match call {
            Call::Start { step, lanes } => self.start(step, lanes).map(|()| Answer::Accepted),
            Call::Summon(carrier) => self.summon(carrier).map(|()| Answer::Accepted),
            Call::Look(carrier) => self.look(carrier).map(|()| Answer::Accepted),
            Call::Settle(carrier) => self.settle(carrier).map(Answer::Settled),
            Call::Run { depth, budget } => self.run(depth, budget).map(Answer::Ran),
            Call::PriceOf(job) => self.price(job).map(Answer::Price),
            Call::HolderOf(job) => self.holder(job).map(Answer::Holder),
            Call::StandingOf(carrier) => self.standing(carrier).map(Answer::Stands),
            Call::TotalWorth => self.worth().map(Answer::Worth),
            Call::AllCounts => self.counts().map(Answer::Counted),
        }
    }
}
