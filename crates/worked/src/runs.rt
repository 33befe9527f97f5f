//! Worked runs.
ghost use Rattle.std.specs.Prelude.{◌≡◌, ◌≤◌, None, Ok};
ghost use Rattle.sources.specs.Sheets.{fill_verdict, sheet_of};
ghost use Rattle.auction.specs.Calls.{answers_from};
ghost use Rattle.worked.specs.Sheets.{three_by_three};
ghost use Rattle.worked.specs.Runs.{Plays, StaleBid, WideRival, answers_in, calls_in, empty_row, net_above, net_below, net_zero, no_entries, one_by_one, one_job, smaller_job, three_in_flight, two_alike, wide, wide_step};

use auction::{Answer, Call};
use hall::replay;
use refusals::Refusal;
use sources::{Entry, Heading, Sheet};
use three_by_three::{ENTRIES, HEADING, STARTS};

// How the auctions start, but the one with a wider step.
const START: Call = Call::Start { step: 1, lanes: 4 };

// A call that runs.
fn run(depth: usize, budget: u64) -> Call
    ensures { result ≡ Call.Run depth budget }
{
    Call::Run { depth, budget }
}

// Performs the calls on a new hall over the sheet of these tables, and gives the answers.
fn play<const N: usize>(
    heading: Heading,
    starts: &[usize],
    entries: &[Entry],
    calls: [Call; N],
) -> [Result<Answer, Refusal>; N]
    requires { fill_verdict heading starts.now entries.now ≡ Ok tt }
    ensures { result ≡ answers_from (sheet_of heading starts.now entries.now) None calls.entry }
{
    let mut sheet = Sheet::new();
    let _ = sheet.fill(heading, starts, entries);
    let mut answers = [Ok(Answer::Accepted); N];
    let _ = replay(sheet, &calls, &mut answers);
    answers
}

// The same, on the auction of three carriers and three jobs.
fn play_table<const N: usize>(calls: [Call; N]) -> [Result<Answer, Refusal>; N]
    ensures { result ≡ answers_from three_by_three None calls.entry }
{
    play(HEADING, &STARTS, &ENTRIES, calls)
}

/// Depth 1: one carrier bids at a time.
#[tactic(auto, using(crate::proofs::Played::one_by_one_played))]
pub fn one_by_one() -> [Result<Answer, Refusal>; 19]
    ensures value { result ≡ answers_in one_by_one }
    ensures worked { Plays three_by_three one_by_one }
{
    let calls = [
        START,
        run(1, 3),
        Call::HolderOf(1),
        Call::PriceOf(1),
        START,
        run(1, 6),
        Call::HolderOf(1),
        Call::PriceOf(1),
        START,
        run(1, 9),
        Call::HolderOf(2),
        Call::PriceOf(2),
        START,
        run(1, 100),
        Call::HolderOf(0),
        Call::PriceOf(0),
        Call::HolderOf(1),
        Call::HolderOf(2),
        Call::TotalWorth,
    ];
    play_table(calls)
}

/// Depth 3: three carriers bid, and one bid turns stale.
#[tactic(auto, using(crate::proofs::Played::three_in_flight_played, crate::proofs::Played::stale_bid))]
pub fn three_in_flight() -> [Result<Answer, Refusal>; 16]
    ensures value { result ≡ answers_in three_in_flight }
    ensures worked { Plays three_by_three three_in_flight }
    ensures bid { StaleBid }
{
    let calls = [
        START,
        run(3, 6),
        Call::StandingOf(2),
        START,
        run(3, 10),
        Call::PriceOf(1),
        Call::StandingOf(2),
        START,
        run(3, 100),
        Call::HolderOf(0),
        Call::HolderOf(1),
        Call::HolderOf(2),
        Call::PriceOf(0),
        Call::PriceOf(1),
        Call::PriceOf(2),
        Call::TotalWorth,
    ];
    play_table(calls)
}

// One job, worth 5 to carrier 0 and so much to carrier 1.
fn one_job(worth: u64) -> [Result<Answer, Refusal>; 10]
    requires some { 1 ≤ worth }
    requires low { worth ≤ 9 }
    ensures { result ≡ answers_from (one_job worth) None (calls_in net_below) }
{
    let heading = Heading {
        carriers: 2,
        jobs: 1,
        ceiling: 9,
    };
    let entries = [Entry { job: 0, worth: 5 }, Entry { job: 0, worth }];
    let calls = [
        START,
        run(1, 3),
        Call::HolderOf(0),
        Call::PriceOf(0),
        run(1, 2),
        Call::StandingOf(1),
        run(1, 100),
        Call::StandingOf(1),
        Call::HolderOf(0),
        Call::PriceOf(0),
    ];
    play(heading, &[0, 1, 2], &entries, calls)
}

/// Worth 3 at a price of 6.
#[tactic(auto, using(crate::proofs::Played::net_below_played))]
pub fn net_below() -> [Result<Answer, Refusal>; 10]
    ensures value { result ≡ answers_in net_below }
    ensures worked { Plays (one_job 3) net_below }
{
    one_job(3)
}

/// Worth 6 at a price of 6.
#[tactic(auto, using(crate::proofs::Played::net_zero_played))]
pub fn net_zero() -> [Result<Answer, Refusal>; 10]
    ensures value { result ≡ answers_in net_zero }
    ensures worked { Plays (one_job 6) net_zero }
{
    one_job(6)
}

/// Worth 7 at a price of 6.
#[tactic(auto, using(crate::proofs::Played::net_above_played))]
pub fn net_above() -> [Result<Answer, Refusal>; 10]
    ensures value { result ≡ answers_in net_above }
    ensures worked { Plays (one_job 7) net_above }
{
    one_job(7)
}

/// Two jobs of worth 9 for one carrier.
#[tactic(auto, using(crate::proofs::Played::smaller_job_played))]
pub fn smaller_job() -> [Result<Answer, Refusal>; 5]
    ensures value { result ≡ answers_in smaller_job }
    ensures worked { Plays two_alike smaller_job }
{
    let heading = Heading {
        carriers: 1,
        jobs: 2,
        ceiling: 9,
    };
    let entries = [Entry { job: 0, worth: 9 }, Entry { job: 1, worth: 9 }];
    let calls = [
        START,
        run(1, 100),
        Call::HolderOf(0),
        Call::PriceOf(0),
        Call::HolderOf(1),
    ];
    play(heading, &[0, 2], &entries, calls)
}

/// Rows 10 9 and 10 1, with a step of 10.
#[tactic(auto, using(crate::proofs::Played::wide_step_played, crate::proofs::Played::rival_within))]
pub fn wide_step() -> [Result<Answer, Refusal>; 7]
    ensures value { result ≡ answers_in wide_step }
    ensures worked { Plays wide wide_step }
    ensures rival { WideRival }
{
    let heading = Heading {
        carriers: 2,
        jobs: 2,
        ceiling: 10,
    };
    let entries = [
        Entry { job: 0, worth: 10 },
        Entry { job: 1, worth: 9 },
        Entry { job: 0, worth: 10 },
        Entry { job: 1, worth: 1 },
    ];
    let calls = [
        Call::Start { step: 10, lanes: 4 },
        run(1, 100),
        Call::PriceOf(0),
        Call::PriceOf(1),
        Call::HolderOf(0),
        Call::HolderOf(1),
        Call::TotalWorth,
    ];
    play(heading, &[0, 2, 4], &entries, calls)
}

/// A carrier with no entries.
#[tactic(auto, using(crate::proofs::Played::empty_row_played))]
pub fn empty_row() -> [Result<Answer, Refusal>; 4]
    ensures value { result ≡ answers_in empty_row }
    ensures worked { Plays no_entries empty_row }
{
    let heading = Heading {
        carriers: 1,
        jobs: 1,
        ceiling: 9,
    };
    let entries: [Entry; 0] = [];
    let calls = [START, Call::Summon(0), Call::Settle(0), Call::StandingOf(0)];
    play(heading, &[0, 0], &entries, calls)
}
