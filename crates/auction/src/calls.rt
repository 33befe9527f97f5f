//! The calls on a hall, questions too, and their answers.
ghost use Rattle.auction.specs.Shown.{answer_text, call_text};
ghost use Rattle.std.specs.Prelude.{Some};

use crate::bidding::{Counts, Report, Standing, Verdict};
use std::fmt;

/// A call on a hall, or a question to it, with what it is given.
#[derive(Clone, Copy, PartialEq, Eq, Debug)]
pub enum Call {
    Start { step: u64, lanes: usize },
    Summon(usize),
    Look(usize),
    Settle(usize),
    Run { depth: usize, budget: u64 },
    PriceOf(usize),
    HolderOf(usize),
    StandingOf(usize),
    TotalWorth,
    AllCounts,
}

/// What an accepted call answers. A call gives `Result<Answer, Refusal>`.
#[derive(Clone, Copy, PartialEq, Eq, Debug)]
pub enum Answer {
    /// Start, summon and look tell only success.
    Accepted,
    Settled(Verdict),
    Ran(Report),
    Price(u64),
    Holder(Option<usize>),
    Stands(Standing),
    Worth(u64),
    Counted(Counts),
}

// A call in its plain form, as a log has it.
impl fmt::Display for Call {
    ghost output = { λ x. Some (call_text x) };

    fn fmt<W: fmt::Write>(&self, f: &mut fmt::Formatter<W>) -> fmt::Result {
        match *self {
            Call::Start { step, lanes } => write!(f, "start {step} {lanes}"),
            Call::Summon(carrier) => write!(f, "summon {carrier}"),
            Call::Look(carrier) => write!(f, "look {carrier}"),
            Call::Settle(carrier) => write!(f, "settle {carrier}"),
            Call::Run { depth, budget } => write!(f, "run {depth} {budget}"),
            Call::PriceOf(job) => write!(f, "price {job}"),
            Call::HolderOf(job) => write!(f, "holder {job}"),
            Call::StandingOf(carrier) => write!(f, "standing {carrier}"),
            Call::TotalWorth => write!(f, "worth"),
            Call::AllCounts => write!(f, "counts"),
        }
    }
}

// An answer in plain words.
impl fmt::Display for Answer {
    ghost output = { λ x. Some (answer_text x) };

    fn fmt<W: fmt::Write>(&self, f: &mut fmt::Formatter<W>) -> fmt::Result {
        match *self {
            Answer::Accepted => write!(f, "accepted"),
            Answer::Settled(verdict) => write!(f, "{verdict}"),
            Answer::Ran(report) => write!(f, "{report}"),
            Answer::Price(price) => write!(f, "{price}"),
            Answer::Holder(Some(carrier)) => write!(f, "carrier {carrier}"),
            Answer::Holder(None) => write!(f, "nobody"),
            Answer::Stands(standing) => write!(f, "{standing}"),
            Answer::Worth(worth) => write!(f, "{worth}"),
            Answer::Counted(counts) => write!(f, "{counts}"),
        }
    }
}
