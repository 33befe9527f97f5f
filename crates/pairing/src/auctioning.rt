//! The auction of a sheet.
ghost use Rattle.std.specs.Prelude.{◌≡◌, ◌≤◌, length, OnOk};
ghost use Rattle.pairing.specs.Held.{HeldUnderTimes};
ghost use Rattle.pairing.specs.Pairs.{Ends, auctioned};
ghost use Rattle.sources.specs.Limits.{most_carriers};

use auction::{Answer, Call, Counts, Standing};
use hall::Hall;
use refusals::Refusal;
use sources::{Source, Times};

// The figures of the auction of every sheet.
const PAIR_STEP: u64 = 1;

const PAIR_LANES: usize = 8;

const PAIR_DEPTH: usize = 8;

const PAIR_BUDGET: u64 = 1_000_000;

// Puts times (carriers + 1) on the sheet, starts, runs, and notes every carrier's standing. It gives the counts, or why the start was
// refused.
pub(crate) fn hold_auction<S: Source>(
    source: &S,
    standings: &mut [Standing],
) -> Result<Counts, Refusal>
    requires few { length standings.old ≤ most_carriers }
    requires each { length standings.old ≡ (S.Source.meaning source.now).carriers }
    ensures ends { Ends (auctioned (S.Source.meaning source.now)) result standings.new }
    ensures timed { OnOk result (HeldUnderTimes (S.Source.meaning source.now) standings.new) }
{
    let times = Times {
        below: source,
        factor: standings.len() as u32 + 1,
    };
    let calls = [
        Call::Start {
            step: PAIR_STEP,
            lanes: PAIR_LANES,
        },
        Call::Run {
            depth: PAIR_DEPTH,
            budget: PAIR_BUDGET,
        },
    ];
    let mut answers = [Ok(Answer::Accepted); 2];
    let mut hall = Hall::new(times);
    let _ = hall.perform_all(&calls, &mut answers);
    answers[0]?;
    for (carrier, standing) in standings.iter_mut().enumerate() {
        if let Ok(told) = hall.standing(carrier) {
            *standing = told;
        }
    }
    hall.counts()
}
