//! Every refusal of every call, in checking order.
use crate::sheets::{bid, hall_of, table_hall, won};
use auction::Verdict;
use hall::Hall;
use refusals::Refusal;
use sources::{Entry, Place, Positions, Sheet};
use std::test::Fail;

#[test]
fn start_checks_counts_then_step_then_lanes(rt: HostRuntime) {
    let mut empty = Hall::new(Sheet::new());
    assert_eq!(rt; empty.start(0, 0), Err(Refusal::CountsOutside));
    assert_eq!(rt; empty.start(1, 4), Err(Refusal::CountsOutside));
    let mut hall = table_hall();
    assert_eq!(rt; hall.start(0, 0), Err(Refusal::StepOutside));
    assert_eq!(rt; hall.start((1 << 36) + 1, 33), Err(Refusal::StepOutside));
    assert_eq!(rt; hall.start(1, 0), Err(Refusal::LanesOutside));
    assert_eq!(rt; hall.start(1 << 36, 33), Err(Refusal::LanesOutside));
    assert_eq!(rt; hall.start(1 << 36, 32), Ok(()));
}

#[test]
fn counts_have_limits(rt: HostRuntime) {
    let places = [Place { aisle: 0, level: 0 }; 257];
    let mut wide = Hall::new(Positions {
        carriers: &places[0..129],
        jobs: &places[0..1],
        reach: 9,
    });
    assert_eq!(rt; wide.start(1, 1), Err(Refusal::CountsOutside));
    let mut long = Hall::new(Positions {
        carriers: &places[0..1],
        jobs: &places,
        reach: 9,
    });
    assert_eq!(rt; long.start(1, 1), Err(Refusal::CountsOutside));
    let mut most = Hall::new(Positions {
        carriers: &places[0..128],
        jobs: &places[0..256],
        reach: 9,
    });
    assert_eq!(rt; most.start(1, 1), Ok(()));
}

#[test]
fn a_hall_is_started_before_all_else(rt: HostRuntime) {
    let mut hall = table_hall();
    assert_eq!(rt; hall.summon(9), Err(Refusal::NeverStarted));
    assert_eq!(rt; hall.look(9), Err(Refusal::NeverStarted));
    assert_eq!(rt; hall.settle(9), Err(Refusal::NeverStarted));
    assert_eq!(rt; hall.start(0, 4), Err(Refusal::StepOutside));
    assert_eq!(rt; hall.summon(0), Err(Refusal::NeverStarted));
}

#[test]
fn a_carrier_number_is_checked_before_its_standing(rt: HostRuntime) -> Result<(), Fail> {
    let mut hall = table_hall();
    hall.start(1, 4)?;
    assert_eq!(rt; hall.summon(3), Err(Refusal::NoSuchCarrier));
    assert_eq!(rt; hall.look(3), Err(Refusal::NoSuchCarrier));
    assert_eq!(rt; hall.settle(3), Err(Refusal::NoSuchCarrier));
    assert_eq!(rt; hall.summon(usize::MAX), Err(Refusal::NoSuchCarrier));
    Ok(())
}

#[test]
fn calls_that_do_not_fit_the_standing(rt: HostRuntime) -> Result<(), Fail> {
    let entries = [Entry { job: 0, worth: 5 }, Entry { job: 0, worth: 3 }];
    let mut hall = hall_of(3, 1, &[0, 1, 2, 2], &entries);
    hall.start(1, 4)?;
    // Waiting.
    assert_eq!(rt; hall.look(0), Err(Refusal::NoOpenBid));
    assert_eq!(rt; hall.settle(0), Err(Refusal::NoOpenBid));
    // Bidding.
    hall.summon(0)?;
    assert_eq!(rt; hall.summon(0), Err(Refusal::NotWaiting));
    assert_eq!(rt; hall.settle(0), Err(Refusal::RowNotLookedAt));
    hall.look(0)?;
    assert_eq!(rt; hall.look(0), Err(Refusal::RowLookedAt));
    assert_eq!(rt; hall.settle(0), won(0, 6, None));
    // Served.
    assert_eq!(rt; hall.summon(0), Err(Refusal::NotWaiting));
    assert_eq!(rt; hall.look(0), Err(Refusal::NoOpenBid));
    assert_eq!(rt; hall.settle(0), Err(Refusal::NoOpenBid));
    Ok(())
}

#[test]
fn calls_on_a_carrier_that_is_out(rt: HostRuntime) -> Result<(), Fail> {
    let entries = [Entry { job: 0, worth: 5 }, Entry { job: 0, worth: 3 }];
    let mut hall = hall_of(2, 1, &[0, 1, 2], &entries);
    hall.start(1, 4)?;
    assert_eq!(rt; bid(&mut hall, 0), won(0, 6, None));
    assert_eq!(rt; bid(&mut hall, 1), Ok(Verdict::Out));
    assert_eq!(rt; hall.summon(1), Err(Refusal::NotWaiting));
    assert_eq!(rt; hall.look(1), Err(Refusal::NoOpenBid));
    assert_eq!(rt; hall.settle(1), Err(Refusal::NoOpenBid));
    Ok(())
}

// A refused start leaves the auction that is under way.
#[test]
fn a_refused_call_alters_nothing(rt: HostRuntime) -> Result<(), Fail> {
    let mut hall = table_hall();
    hall.start(1, 4)?;
    hall.summon(0)?;
    assert_eq!(rt; hall.start(0, 4), Err(Refusal::StepOutside));
    assert_eq!(rt; hall.summon(0), Err(Refusal::NotWaiting));
    assert_eq!(rt; hall.settle(0), Err(Refusal::RowNotLookedAt));
    hall.look(0)?;
    assert_eq!(rt; hall.settle(0), won(1, 6, None));
    Ok(())
}
