//! Auctions call by call.
use crate::sheets::{bid, hall_of, table_hall, won};
use auction::{Best, Bid, Standing, Verdict};
use hall::Hall;
use refusals::Refusal;
use sources::{Entry, Floor, Heading, Sheet};
use std::test::Fail;

// A negative other net counts as 0: the bid is worth + step, and not more.
#[test]
fn a_negative_runner_up_counts_as_none(rt: HostRuntime) -> Result<(), Fail> {
    let entries = [
        Entry { job: 0, worth: 9 },
        Entry { job: 0, worth: 1 },
        Entry { job: 1, worth: 5 },
    ];
    let mut hall = hall_of(2, 2, &[0, 1, 3], &entries);
    hall.start(1, 4)?;
    assert_eq!(rt; bid(&mut hall, 0), won(0, 10, None));
    assert_eq!(rt; bid(&mut hall, 1), won(1, 6, None));
    Ok(())
}

#[test]
fn an_empty_row_settles_out_without_a_look(rt: HostRuntime) -> Result<(), Fail> {
    let mut hall = hall_of(1, 1, &[0, 0], &[]);
    hall.start(1, 4)?;
    hall.summon(0)?;
    assert_eq!(rt; hall.look(0), Err(Refusal::RowLookedAt));
    assert_eq!(rt; hall.settle(0), Ok(Verdict::Out));
    assert_eq!(rt; hall.summon(0), Err(Refusal::NotWaiting));
    Ok(())
}

// With one lane a row of three entries takes three looks, each at the prices of its moment.
#[test]
fn a_look_takes_as_many_entries_as_lanes(rt: HostRuntime) -> Result<(), Fail> {
    let mut hall = table_hall();
    hall.start(1, 1)?;
    hall.summon(2)?;
    hall.look(2)?;
    hall.look(2)?;
    assert_eq!(rt; hall.settle(2), Err(Refusal::RowNotLookedAt));
    hall.look(2)?;
    assert_eq!(rt; hall.look(2), Err(Refusal::RowLookedAt));
    assert_eq!(rt; hall.settle(2), won(1, 7, None));
    Ok(())
}

// A look of eight lanes over nine entries, and one over the ninth.
#[test]
fn nine_entries_take_two_looks_of_eight_lanes(rt: HostRuntime) -> Result<(), Fail> {
    let entries = [
        Entry { job: 0, worth: 3 },
        Entry { job: 1, worth: 1 },
        Entry { job: 2, worth: 4 },
        Entry { job: 3, worth: 1 },
        Entry { job: 4, worth: 5 },
        Entry { job: 5, worth: 9 },
        Entry { job: 6, worth: 2 },
        Entry { job: 7, worth: 6 },
        Entry { job: 8, worth: 5 },
    ];
    let mut hall = hall_of(1, 9, &[0, 9], &entries);
    hall.start(1, 8)?;
    hall.summon(0)?;
    hall.look(0)?;
    assert_eq!(rt; hall.settle(0), Err(Refusal::RowNotLookedAt));
    hall.look(0)?;
    assert_eq!(rt; hall.settle(0), won(5, 4, None));
    Ok(())
}

// Two equal nets in two looks: the job of the first is won, and the second is the runner-up.
#[test]
fn an_equal_net_of_a_later_look_is_the_runner_up(rt: HostRuntime) -> Result<(), Fail> {
    let entries = [Entry { job: 0, worth: 9 }, Entry { job: 1, worth: 9 }];
    let mut hall = hall_of(1, 2, &[0, 2], &entries);
    hall.start(1, 1)?;
    hall.summon(0)?;
    hall.look(0)?;
    hall.look(0)?;
    assert_eq!(rt; hall.settle(0), won(0, 1, None));
    Ok(())
}

// Between two looks job 1 is awarded at 6. The net that was seen of it before stays in the bid, and 7 is above 6.
#[test]
fn a_bid_keeps_the_nets_that_it_saw(rt: HostRuntime) -> Result<(), Fail> {
    let mut hall = table_hall();
    hall.start(1, 2)?;
    hall.summon(2)?;
    hall.look(2)?;
    hall.summon(0)?;
    hall.look(0)?;
    hall.look(0)?;
    assert_eq!(rt; hall.settle(0), won(1, 6, None));
    hall.look(2)?;
    let best = Best {
        net: 14,
        job: 1,
        worth: 14,
    };
    let bid = Bid {
        looked: 3,
        best: Some(best),
        runner_up: 8,
    };
    assert_eq!(rt; hall.standing(2), Ok(Standing::Bidding(bid)));
    assert_eq!(rt; hall.settle(2), won(1, 7, Some(0)));
    Ok(())
}

// A job that costs more than when it was seen stays the runner-up at its old net: 9 - 8 + 1 is bid, and not 9 - 2 + 1.
#[test]
fn a_runner_up_that_has_risen_makes_no_higher_bid(rt: HostRuntime) -> Result<(), Fail> {
    let entries = [
        Entry { job: 0, worth: 9 },
        Entry { job: 1, worth: 8 },
        Entry { job: 1, worth: 5 },
    ];
    let mut hall = hall_of(2, 2, &[0, 2, 3], &entries);
    hall.start(1, 4)?;
    hall.summon(0)?;
    hall.look(0)?;
    assert_eq!(rt; bid(&mut hall, 1), won(1, 6, None));
    assert_eq!(rt; hall.settle(0), won(0, 2, None));
    Ok(())
}

// Entries of worth 0 are skipped: below a floor of 9 only job 1 is left of the first row.
#[test]
fn entries_of_worth_0_are_skipped(rt: HostRuntime) -> Result<(), Fail> {
    let entries = [Entry { job: 0, worth: 8 }, Entry { job: 1, worth: 9 }];
    let heading = Heading {
        carriers: 1,
        jobs: 2,
        ceiling: 9,
    };
    let mut sheet = Sheet::new();
    sheet.fill(heading, &[0, 2], &entries)?;
    let mut hall = Hall::new(Floor {
        below: sheet,
        floor: 9,
    });
    hall.start(1, 4)?;
    assert_eq!(rt; bid(&mut hall, 0), won(1, 10, None));
    Ok(())
}

// Start sets everything back, also when an auction is under way.
#[test]
fn a_second_start_sets_everything_back(rt: HostRuntime) -> Result<(), Fail> {
    let mut hall = table_hall();
    hall.start(1, 4)?;
    assert_eq!(rt; bid(&mut hall, 0), won(1, 6, None));
    hall.summon(1)?;
    hall.start(2, 4)?;
    assert_eq!(rt; hall.look(1), Err(Refusal::NoOpenBid));
    assert_eq!(rt; bid(&mut hall, 0), won(1, 7, None));
    Ok(())
}
