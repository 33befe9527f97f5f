//! A list of calls on any hall, and on a new one.
ghost use Rattle.std.specs.Prelude.{◌≡◌, true, false, length, is_ok, if◌then◌else◌, None, Ok, Err, nat_le};
ghost use Rattle.hall.specs.InBooks.{tally_of};
ghost use Rattle.hall.specs.Replayed.{Performed, Replayed};

use crate::halls::Hall;
use auction::{Answer, Call};
use refusals::Refusal;
use sources::Source;

impl<S: Source> Hall<S> {
    /// Performs the calls in their order, and writes each answer. Answers too few for the calls are refused, and then nothing is
    /// written or performed.
    pub fn perform_all(
        &mut self,
        calls: &[Call],
        answers: &mut [Result<Answer, Refusal>],
    ) -> Result<(), Refusal>
        ensures source_kept { self.new.source ≡ self.old.source }
        ensures fits { result ≡ (if nat_le (length calls.now) (length answers.old) then Ok tt else Err Refusal.TooShort) }
        ensures performed { is_ok result ≡ true →
            Performed (S.meaning self.old.source) calls.now answers.old answers.new (tally_of self.old.books) (tally_of self.new.books) }
        ensures refused { is_ok result ≡ false → (answers.new ≡ answers.old) × (self.new ≡ self.old) }
    {
        if calls.len() > answers.len() {
            return Err(Refusal::TooShort);
        }
        // By index: after a zip with `iter_mut` a proof knows how many answers there are, and not what was written.
        for (i, call) in calls.iter().enumerate() {
            answers[i] = self.perform(*call);
        }
        Ok(())
    }
}

/// Performs the calls in their order on a new hall, and writes each answer. Answers too few for the calls are refused, and then nothing
/// is written or performed.
pub fn replay<S: Source>(
    source: S,
    calls: &[Call],
    answers: &mut [Result<Answer, Refusal>],
) -> (Hall<S>, Result<(), Refusal>)
    ensures source_kept { result.0.source ≡ source }
    ensures fits { result.1 ≡ (if nat_le (length calls.now) (length answers.old) then Ok tt else Err Refusal.TooShort) }
    ensures replayed { is_ok result.1 ≡ true → Replayed (S.meaning source) calls.now answers.old answers.new result.0.books }
    ensures refused { is_ok result.1 ≡ false → (answers.new ≡ answers.old) × (tally_of result.0.books ≡ None) }
{
    let mut hall = Hall::new(source);
    let performed = hall.perform_all(calls, answers);
    (hall, performed)
}
