//! The laws that the trials check, and how often each of them had something to check.
use std::fmt;

#[derive(Clone, Copy, PartialEq, Eq, Debug)]
pub(crate) enum Law {
    // Of each call.
    Refusal,
    NeverStarted,
    Answer,
    Unaltered,
    Start,
    Replay,
    Parts,
    // Of what the hall tells after each call.
    Pairing,
    Worth,
    Rival,
    Exact,
    ExactWhenSpent,
    Slack,
    LeftOut,
    Balance,
    FewAwards,
    FewStales,
    // Of each summons, look and settle, those of a run too.
    Summons,
    Look,
    Found,
    FoundAfterRise,
    NotFallen,
    Out,
    Award,
    Stale,
    StaleWhy,
    Conservative,
    ConservativeAfterRise,
    CarriedOut,
    SequentialOut,
    SequentialAward,
    // Of each run.
    Report,
    Steps,
    MadeOf,
    Narrow,
    SummonsFirst,
    Line,
    Flight,
    Rounds,
}

// All of them, in their order, each in plain words.
pub(crate) const LAWS: [(Law, &str); 39] = [
    (
        Law::Refusal,
        "a call is refused by the first reason that applies, or not at all",
    ),
    (
        Law::NeverStarted,
        "a hall that was never started refuses all but a start",
    ),
    (
        Law::Answer,
        "an accepted call answers as its kind does, and a question what the hall told before",
    ),
    (
        Law::Unaltered,
        "a question and a refused call alter nothing",
    ),
    (Law::Start, "a start sets everything back"),
    (
        Law::Replay,
        "a list that is replayed gives the same answers",
    ),
    (
        Law::Parts,
        "a list replayed in part and then performed to its end gives the same answers",
    ),
    (
        Law::Pairing,
        "who is served holds a job of its own, and a job without a holder costs nothing",
    ),
    (Law::Worth, "the total worth is that of the pairing"),
    (
        Law::Rival,
        "no rival pairing is worth more than the hall's and a step for each carrier served",
    ),
    (
        Law::Exact,
        "with a factor above carriers times step no rival is worth more below the layer",
    ),
    (
        Law::ExactWhenSpent,
        "after a spent run no rival of the carriers served or out is worth more below such a layer",
    ),
    (
        Law::Slack,
        "who is served is within a step of its best net, and of 0",
    ),
    (Law::LeftOut, "who is out would gain nothing"),
    (
        Law::Balance,
        "summonses are awards, stale bids, outs and open bids",
    ),
    (
        Law::FewAwards,
        "awards are at most jobs times the highest price",
    ),
    (
        Law::FewStales,
        "stale bids are at most awards times the other carriers",
    ),
    (
        Law::Summons,
        "a summons opens a bid that has looked at nothing, and alters nothing else",
    ),
    (Law::Look, "a look alters its bid and nothing else"),
    (
        Law::Found,
        "a bid has the best of all nets that it saw, and the largest of the others",
    ),
    (
        Law::FoundAfterRise,
        "a bid keeps what it saw where a price has risen since",
    ),
    (
        Law::NotFallen,
        "no price is below what it was when a bid saw it",
    ),
    (Law::Out, "a bid without a net above 0 is out, and no other"),
    (
        Law::Award,
        "an award is of the best job, at what is bid, and displaces its holder",
    ),
    (Law::Stale, "a stale bid is at most the price"),
    (
        Law::StaleWhy,
        "the best job of a stale bid costs more than when it was seen",
    ),
    (
        Law::Conservative,
        "no more is bid than with another net, at the prices now, as runner-up",
    ),
    (
        Law::ConservativeAfterRise,
        "no more is bid than with the net of a job as runner-up whose price has risen since it was seen",
    ),
    (
        Law::CarriedOut,
        "a settle alters what its verdict says, and nothing else",
    ),
    (
        Law::SequentialOut,
        "a bid without an award in between is out by the sequential rule",
    ),
    (
        Law::SequentialAward,
        "a bid without an award in between is awarded by the sequential rule",
    ),
    (
        Law::Report,
        "a run reports its steps, its ending and what the counts moved by",
    ),
    (Law::Steps, "a run with one step less makes one act less"),
    (
        Law::MadeOf,
        "the acts of a run, made one by one, are accepted and lead to the same",
    ),
    (
        Law::Narrow,
        "no more bids are open than the depth, or than before the run",
    ),
    (
        Law::SummonsFirst,
        "a step is a summons exactly if one waits and the depth leaves room",
    ),
    (Law::Line, "who waits longest is summoned first"),
    (
        Law::Flight,
        "of the open bids that one acts whose last act is longest ago",
    ),
    (
        Law::Rounds,
        "at depth 1 one carrier after the other is summoned, looks and settles",
    ),
];

impl fmt::Display for Law {
    fn fmt<W: fmt::Write>(&self, f: &mut fmt::Formatter<W>) -> fmt::Result {
        let text = LAWS.get(*self as usize).map_or("", |law| law.1);
        write!(f, "{text}")
    }
}

// How often each law had something to check.
#[derive(Drop)]
pub(crate) struct Checks {
    made: [u64; LAWS.len()],
}

impl Checks {
    pub(crate) fn none() -> Checks {
        Checks {
            made: [0; LAWS.len()],
        }
    }

    // Counts a check, and refuses with the law if it does not hold.
    pub(crate) fn hold(&mut self, law: Law, holds: bool) -> Result<(), Law> {
        if let Some(made) = self.made.get_mut(law as usize) {
            *made = made.saturating_add(1);
        }
        if holds { Ok(()) } else { Err(law) }
    }

    // How often a law was checked.
    pub(crate) fn made(&self, law: Law) -> u64 {
        self.made.get(law as usize).copied().unwrap_or(0)
    }
}
