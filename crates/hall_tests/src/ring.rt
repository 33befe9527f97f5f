//! Rings of carrier numbers, and of carriers with the looks that they have left.
use auction::InFlight;
use refusals::Refusal;
use rings::Ring;
use rings::moves::{Move, Outcome};
use std::test::Fail;

#[test]
fn a_ring_of_carrier_numbers(rt: HostRuntime) -> Result<(), Fail> {
    let mut places = [0usize; 3];
    let mut ring = Ring::new(&mut places);
    assert_eq!(rt; ring.pop(), None);
    for carrier in 5..8 {
        ring.push(carrier)?;
    }
    assert_eq!(rt; ring.push(9), Err(Refusal::TooShort));
    assert_eq!(rt; ring.len(), 3);
    assert_eq!(rt; ring.pop(), Some(5));
    // The freed place is used again.
    ring.push(9)?;
    assert_eq!(rt; ring.push(10), Err(Refusal::TooShort));
    assert_eq!(rt; ring.pop(), Some(6));
    assert_eq!(rt; ring.pop(), Some(7));
    assert_eq!(rt; ring.pop(), Some(9));
    assert!(rt; ring.is_empty());
    assert_eq!(rt; ring.pop(), None);
    Ok(())
}

#[test]
fn a_ring_of_records(rt: HostRuntime) -> Result<(), Fail> {
    let first = InFlight {
        carrier: 4,
        looks_left: 2,
    };
    let second = InFlight {
        carrier: 0,
        looks_left: 0,
    };
    let mut places = [first; 1];
    let mut ring = Ring::new(&mut places);
    ring.push(second)?;
    assert_eq!(rt; ring.push(first), Err(Refusal::TooShort));
    assert_eq!(rt; ring.pop(), Some(second));
    ring.push(first)?;
    assert_eq!(rt; ring.pop(), Some(first));
    assert_eq!(rt; ring.pop(), None);
    Ok(())
}

#[test]
fn a_ring_without_places_refuses_everything(rt: HostRuntime) {
    let mut places = [0usize; 0];
    let mut ring = Ring::new(&mut places);
    assert_eq!(rt; ring.push(1), Err(Refusal::TooShort));
    assert_eq!(rt; ring.pop(), None);
}

fn popped(outcome: Outcome<usize>) -> Option<usize> {
    match outcome {
        Outcome::Popped(found) => found,
        Outcome::Pushed(_) => None,
    }
}

#[test]
fn a_list_of_moves(rt: HostRuntime) -> Result<(), Fail> {
    let mut places = [0usize; 2];
    let mut ring = Ring::new(&mut places);
    let moves = [
        Move::Push(7),
        Move::Push(8),
        Move::Push(9),
        Move::Pop,
        Move::Push(10),
        Move::Pop,
        Move::Pop,
        Move::Pop,
    ];
    let mut outcomes = [Outcome::Pushed(Ok(())); 8];
    assert_eq!(rt;
        ring.perform_all(&moves, &mut outcomes[0..7]),
        Err(Refusal::TooShort)
    );
    assert_eq!(rt; ring.len(), 0);
    ring.perform_all(&moves, &mut outcomes)?;
    assert_eq!(rt; popped(outcomes[3]), Some(7));
    assert_eq!(rt; popped(outcomes[5]), Some(8));
    assert_eq!(rt; popped(outcomes[6]), Some(10));
    assert_eq!(rt; popped(outcomes[7]), None);
    Ok(())
}
