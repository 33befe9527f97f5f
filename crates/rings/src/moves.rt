//! Lists of pushes and pops.
ghost use Rattle.rings.specs.Held.{held, room};
ghost use Rattle.rings.specs.Moves.{MovesMade, list_after, outcome_of};
ghost use Rattle.rings.specs.declared.moves.Outcome.TheVariants.{Pushed, Popped};
ghost use Rattle.std.specs.Prelude.{◌≡◌, true, false, length, is_ok, if◌then◌else◌, None, Ok, Err, nat_le};

use crate::Ring;
use refusals::Refusal;

/// A push or a pop.
#[derive(Clone, Copy)]
pub enum Move<T> {
    Push(T),
    Pop,
}

/// What came of it.
#[derive(Clone, Copy)]
pub enum Outcome<T> {
    Pushed(Result<(), Refusal>),
    Popped(Option<T>),
}

impl<'a, T: Copy> Ring<'a, T> {
    /// Makes one push or pop. A push that is refused, and a pop that finds nothing, leave the ring as it was.
    pub fn perform(&mut self, step: Move<T>) -> Outcome<T>
        ensures outcome { result ≡ outcome_of (room self.old) (held self.old) step }
        ensures holds { held self.new ≡ list_after (room self.old) (held self.old) step }
        ensures refused { result ≡ Pushed (Err Refusal.TooShort) → self.new ≡ self.old }
        ensures empty { result ≡ Popped None → self.new ≡ self.old }
        ensures size { room self.new ≡ room self.old }
    {
        match step {
            Move::Push(x) => Outcome::Pushed(self.push(x)),
            Move::Pop => Outcome::Popped(self.pop()),
        }
    }

    /// Makes the pushes and pops in their order, and writes what came of each. Outcomes too few for the moves are refused, and then
    /// nothing is made or written.
    pub fn perform_all(
        &mut self,
        moves: &[Move<T>],
        outcomes: &mut [Outcome<T>],
    ) -> Result<(), Refusal>
        ensures fits { result ≡ (if nat_le (length moves.now) (length outcomes.old) then Ok tt else Err Refusal.TooShort) }
        ensures performed { is_ok result ≡ true →
            MovesMade (room self.old) moves.now (held self.old) (held self.new) outcomes.old outcomes.new }
        ensures refused { is_ok result ≡ false → (outcomes.new ≡ outcomes.old) × (self.new ≡ self.old) }
        ensures size { room self.new ≡ room self.old }
    {
        if moves.len() > outcomes.len() {
            return Err(Refusal::TooShort);
        }
        // By index: after a zip with `iter_mut` a proof knows how many outcomes there are, and not what was written.
        for (i, step) in moves.iter().enumerate() {
            outcomes[i] = self.perform(*step);
        }
        Ok(())
    }
}
