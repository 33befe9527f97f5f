//! Who waits in line and who is in flight during a run.
ghost use Rattle.std.specs.Prelude.{◌≡◌, ◌<◌, ◌&&◌, [], ◌∷◌, ◌++◌, length, is_some, if◌then◌else◌, ◌==◌, nat_lt};
ghost use Rattle.std.specs.Option.{option_to_list};
ghost use Rattle.rings.specs.Held.{held, room};
ghost use Rattle.auction.specs.Standings.{in_flight};
ghost use Rattle.sources.specs.Limits.{most_carriers};

use auction::{Ending, InFlight};
use rings::Ring;

// Each carrier has a place in both.
#[derive(Drop)]
pub(super) struct Queues<'a> {
    line: Ring<'a, usize>,
    flight: Ring<'a, InFlight>,
    ghost line_room: { room line ≡ most_carriers },
    ghost flight_room: { room flight ≡ most_carriers },
}

impl<'a> Queues<'a> {
    // Nobody is in line or flight.
    pub(super) fn new(line: &'a mut [usize], flight: &'a mut [InFlight]) -> Self
        requires line_places { length line.old ≡ most_carriers }
        requires flight_places { length flight.old ≡ most_carriers }
        ensures nobody_waits { held result.line ≡ [] }
        ensures nobody_bids { held result.flight ≡ [] }
    {
        Queues {
            line: Ring::new(line),
            flight: Ring::new(flight),
        }
    }

    // Whether nobody is in line or flight.
    pub(super) fn is_idle(&self) -> bool
        ensures { result ≡ (length (held self.now.line) == 0 && length (held self.now.flight) == 0) }
    {
        self.line.is_empty() && self.flight.is_empty()
    }

    // Done if nobody waits or bids.
    pub(super) fn ending(&self) -> Ending
        ensures { result ≡ (if length (held self.now.line) == 0 && length (held self.now.flight) == 0 then Ending.Done else Ending.Spent) }
    {
        if self.is_idle() {
            Ending::Done
        } else {
            Ending::Spent
        }
    }

    // Takes the line's first, if the flight is shorter than the depth and the line isn't empty.
    pub(super) fn next_to_summon(&mut self, depth: usize) -> Option<usize>
        ensures test { is_some result ≡ (nat_lt (length (held self.old.flight)) depth && nat_lt 0 (length (held self.old.line))) }
        ensures waits { held self.old.line ≡ option_to_list result ++ held self.new.line }
        ensures bids { held self.new.flight ≡ held self.old.flight }
    {
        if self.flight.len() < depth {
            self.line.pop()
        } else {
            None
        }
    }

    // Takes the flight's first, if it isn't empty.
    pub(super) fn next_to_act(&mut self) -> Option<InFlight>
        ensures test { is_some result ≡ nat_lt 0 (length (held self.old.flight)) }
        ensures waits { held self.new.line ≡ held self.old.line }
        ensures bids { held self.old.flight ≡ option_to_list result ++ held self.new.flight }
    {
        self.flight.pop()
    }

    // A carrier joins the line's end.
    pub(super) fn join_line(&mut self, carrier: usize)
        requires { length (held self.old.line) < most_carriers }
        ensures waits { held self.new.line ≡ held self.old.line ++ carrier ∷ [] }
        ensures bids { held self.new.flight ≡ held self.old.flight }
    {
        let _ = self.line.push(carrier);
    }

    // A carrier joins the flight's end, with the looks that it has left.
    pub(super) fn join_flight(&mut self, carrier: usize, looks_left: usize)
        requires { length (held self.old.flight) < most_carriers }
        ensures waits { held self.new.line ≡ held self.old.line }
        ensures bids { held self.new.flight ≡ held self.old.flight ++ in_flight carrier looks_left ∷ [] }
    {
        let _ = self.flight.push(InFlight {
            carrier,
            looks_left,
        });
    }
}
