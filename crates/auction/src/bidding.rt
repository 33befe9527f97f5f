//! What a carrier's standing, its bid and the end of a bid are.
ghost use Rattle.auction.specs.Shown.{award_text, best_text, bid_text, counts_text, ending_text, held_text, report_text, standing_text, verdict_text};
ghost use Rattle.std.specs.Prelude.{Some};

use std::fmt;

/// The best net that a bid has met so far, with its job and worth. A net is worth minus the price at the moment of the look.
#[derive(Clone, Copy, PartialEq, Eq, Debug)]
pub struct Best {
    pub net: i64,
    pub job: usize,
    pub worth: u64,
}

/// How many entries of its row a bid has looked at, the best of them, and the runner-up: the highest net above 0 among the others, and
/// 0 where none is above 0.
#[derive(Clone, Copy, PartialEq, Eq, Debug)]
pub struct Bid {
    pub looked: usize,
    pub best: Option<Best>,
    pub runner_up: u64,
}

/// The job that a served carrier holds, and what it is worth to that carrier.
#[derive(Clone, Copy, PartialEq, Eq, Debug)]
pub struct Held {
    pub job: usize,
    pub worth: u64,
}

/// Where a carrier stands in an auction. An unfinished bid is kept with its carrier.
#[derive(Clone, Copy, PartialEq, Eq, Debug)]
pub enum Standing {
    Waiting,
    Bidding(Bid),
    Served(Held),
    Out,
}

/// A job that was won, its new price, and the carrier that held it before, if there was one.
#[derive(Clone, Copy, PartialEq, Eq, Debug)]
pub struct Award {
    pub job: usize,
    pub price: u64,
    pub displaced: Option<usize>,
}

/// How a bid ends.
#[derive(Clone, Copy, PartialEq, Eq, Debug)]
pub enum Verdict {
    /// No net was above 0.
    Out,
    /// The bid is at most the price now; the carrier waits again.
    Stale,
    Awarded(Award),
}

/// How many summonses, awards, stale bids and outs there were, since the start or in a run.
#[derive(Clone, Copy, PartialEq, Eq, Debug, Default)]
pub struct Counts {
    pub summonses: u64,
    pub awards: u64,
    pub stales: u64,
    pub outs: u64,
}

/// What a carrier is called on to do.
#[derive(Clone, Copy, PartialEq, Eq, Debug)]
pub enum Act {
    Summon,
    Look,
    Settle,
}

/// A carrier in flight during a run, with the looks that it has left.
#[derive(Clone, Copy, PartialEq, Eq, Debug)]
pub struct InFlight {
    pub carrier: usize,
    pub looks_left: usize,
}

/// How a run ends: done if nobody waits or bids, else spent.
#[derive(Clone, Copy, PartialEq, Eq, Debug)]
pub enum Ending {
    Done,
    Spent,
}

/// The steps that a run made, what it counted, and how it ended.
#[derive(Clone, Copy, PartialEq, Eq, Debug)]
pub struct Report {
    pub steps: u64,
    pub counts: Counts,
    pub ending: Ending,
}

// As `job 1 at 8, carrier 0 displaced`, or without the last part.
impl fmt::Display for Award {
    ghost output = { λ x. Some (award_text x) };

    fn fmt<W: fmt::Write>(&self, f: &mut fmt::Formatter<W>) -> fmt::Result {
        let job = self.job;
        let price = self.price;
        match self.displaced {
            Some(carrier) => write!(f, "job {job} at {price}, carrier {carrier} displaced"),
            None => write!(f, "job {job} at {price}"),
        }
    }
}

// `out`, `stale`, or the award.
impl fmt::Display for Verdict {
    ghost output = { λ x. Some (verdict_text x) };

    fn fmt<W: fmt::Write>(&self, f: &mut fmt::Formatter<W>) -> fmt::Result {
        match *self {
            Verdict::Out => write!(f, "out"),
            Verdict::Stale => write!(f, "stale"),
            Verdict::Awarded(award) => write!(f, "{award}"),
        }
    }
}

// As `5 summonses, 4 awards, 1 stale, 0 out`.
impl fmt::Display for Counts {
    ghost output = { λ x. Some (counts_text x) };

    fn fmt<W: fmt::Write>(&self, f: &mut fmt::Formatter<W>) -> fmt::Result {
        let Counts {
            summonses,
            awards,
            stales,
            outs,
        } = *self;
        write!(
            f,
            "{summonses} summonses, {awards} awards, {stales} stale, {outs} out"
        )
    }
}

// `done` or `spent`.
impl fmt::Display for Ending {
    ghost output = { λ x. Some (ending_text x) };

    fn fmt<W: fmt::Write>(&self, f: &mut fmt::Formatter<W>) -> fmt::Result {
        match *self {
            Ending::Done => write!(f, "done"),
            Ending::Spent => write!(f, "spent"),
        }
    }
}

// The ending, the steps, and what they came to.
impl fmt::Display for Report {
    ghost output = { λ x. Some (report_text x) };

    fn fmt<W: fmt::Write>(&self, f: &mut fmt::Formatter<W>) -> fmt::Result {
        let Report {
            steps,
            counts,
            ending,
        } = *self;
        write!(f, "{ending}, {steps} steps, {counts}")
    }
}

// The best net, its job and its worth.
impl fmt::Display for Best {
    ghost output = { λ x. Some (best_text x) };

    fn fmt<W: fmt::Write>(&self, f: &mut fmt::Formatter<W>) -> fmt::Result {
        let Best { net, job, worth } = *self;
        write!(f, "best net {net} at job {job} of worth {worth}")
    }
}

// How far a bid has looked, and what it has found.
impl fmt::Display for Bid {
    ghost output = { λ x. Some (bid_text x) };

    fn fmt<W: fmt::Write>(&self, f: &mut fmt::Formatter<W>) -> fmt::Result {
        let looked = self.looked;
        let runner_up = self.runner_up;
        match self.best {
            None => write!(f, "{looked} looked at, nothing found"),
            Some(best) => write!(f, "{looked} looked at, {best}, runner-up {runner_up}"),
        }
    }
}

// As `job 1 of worth 10`.
impl fmt::Display for Held {
    ghost output = { λ x. Some (held_text x) };

    fn fmt<W: fmt::Write>(&self, f: &mut fmt::Formatter<W>) -> fmt::Result {
        let Held { job, worth } = *self;
        write!(f, "job {job} of worth {worth}")
    }
}

// Where a carrier stands, with its unfinished bid.
impl fmt::Display for Standing {
    ghost output = { λ x. Some (standing_text x) };

    fn fmt<W: fmt::Write>(&self, f: &mut fmt::Formatter<W>) -> fmt::Result {
        match *self {
            Standing::Waiting => write!(f, "waiting"),
            Standing::Bidding(bid) => write!(f, "bidding, {bid}"),
            Standing::Served(held) => write!(f, "served with {held}"),
            Standing::Out => write!(f, "out"),
        }
    }
}
