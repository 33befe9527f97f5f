//! Runs and questions.
use crate::sheets::{hall_of, table_hall};
use auction::{Answer, Best, Bid, Call, Counts, Ending, Report, Standing};
use refusals::Refusal;
use sources::Entry;
use std::test::Fail;

// What carrier 2 finds in its row while every price is 0.
const BID_OF_CARRIER_2: Bid = Bid {
    looked: 3,
    best: Some(Best {
        net: 14,
        job: 1,
        worth: 14,
    }),
    runner_up: 8,
};

// Depth 3: a run that is spent goes on with the next one, and one bid turns stale.
#[test]
fn a_spent_run_goes_on(rt: HostRuntime) -> Result<(), Fail> {
    let mut hall = table_hall();
    hall.start(1, 4)?;
    let first = Report {
        steps: 6,
        counts: Counts {
            summonses: 3,
            awards: 0,
            stales: 0,
            outs: 0,
        },
        ending: Ending::Spent,
    };
    assert_eq!(rt; hall.run(3, 6), Ok(first));
    assert_eq!(rt; hall.standing(2), Ok(Standing::Bidding(BID_OF_CARRIER_2)));
    let rest = Report {
        steps: 9,
        counts: Counts {
            summonses: 2,
            awards: 4,
            stales: 1,
            outs: 0,
        },
        ending: Ending::Done,
    };
    assert_eq!(rt; hall.run(3, 9), Ok(rest));
    let counts = Counts {
        summonses: 5,
        awards: 4,
        stales: 1,
        outs: 0,
    };
    assert_eq!(rt; hall.counts(), Ok(counts));
    Ok(())
}

// A run that makes no step is spent if somebody waits, and done if nobody does.
#[test]
fn runs_without_a_step(rt: HostRuntime) -> Result<(), Fail> {
    let entries = [Entry { job: 0, worth: 9 }];
    let mut hall = hall_of(1, 2, &[0, 1], &entries);
    hall.start(1, 1)?;
    let spent = Report {
        steps: 0,
        counts: Counts::default(),
        ending: Ending::Spent,
    };
    assert_eq!(rt; hall.run(128, 0), Ok(spent));
    hall.run(128, u64::MAX)?;
    let done = Report {
        ending: Ending::Done,
        ..spent
    };
    assert_eq!(rt; hall.run(1, u64::MAX), Ok(done));
    assert_eq!(rt; hall.holder(1), Ok(None));
    Ok(())
}

// Two calls on a hall that was started before. Where there is one place for their answers, neither is made.
#[test]
fn a_list_of_calls_goes_on_with_an_auction(rt: HostRuntime) -> Result<(), Fail> {
    let mut hall = table_hall();
    hall.start(1, 4)?;
    let calls = [Call::Summon(2), Call::StandingOf(2)];
    let mut answers = [Ok(Answer::Worth(9)); 2];
    assert_eq!(rt;
        hall.perform_all(&calls, &mut answers[0..1]),
        Err(Refusal::TooShort)
    );
    assert_eq!(rt; answers[0], Ok(Answer::Worth(9)));
    assert_eq!(rt; hall.standing(2), Ok(Standing::Waiting));
    hall.perform_all(&calls, &mut answers)?;
    let bid = Bid {
        looked: 0,
        best: None,
        runner_up: 0,
    };
    assert_eq!(rt; answers[0], Ok(Answer::Accepted));
    assert_eq!(rt; answers[1], Ok(Answer::Stands(Standing::Bidding(bid))));
    Ok(())
}

#[test]
fn a_run_checks_the_start_then_the_depth(rt: HostRuntime) -> Result<(), Fail> {
    let mut hall = table_hall();
    assert_eq!(rt; hall.run(0, 1), Err(Refusal::NeverStarted));
    hall.start(1, 4)?;
    assert_eq!(rt; hall.run(0, 1), Err(Refusal::DepthOutside));
    assert_eq!(rt; hall.run(129, 1), Err(Refusal::DepthOutside));
    Ok(())
}

#[test]
fn questions_check_the_start_then_the_number(rt: HostRuntime) -> Result<(), Fail> {
    let mut hall = table_hall();
    assert_eq!(rt; hall.price(9), Err(Refusal::NeverStarted));
    assert_eq!(rt; hall.holder(9), Err(Refusal::NeverStarted));
    assert_eq!(rt; hall.standing(9), Err(Refusal::NeverStarted));
    assert_eq!(rt; hall.worth(), Err(Refusal::NeverStarted));
    assert_eq!(rt; hall.counts(), Err(Refusal::NeverStarted));
    hall.start(1, 4)?;
    assert_eq!(rt; hall.price(3), Err(Refusal::NoSuchJob));
    assert_eq!(rt; hall.holder(3), Err(Refusal::NoSuchJob));
    assert_eq!(rt; hall.standing(3), Err(Refusal::NoSuchCarrier));
    assert_eq!(rt; hall.worth(), Ok(0));
    Ok(())
}
