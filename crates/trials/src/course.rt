//! The course of an auction: the calls one by one, and after each all that has to hold.
use crate::acts::{act_of, after_act};
use crate::drawn::{Answers, CALLS, NO_ANSWERS};
use crate::laws::{Checks, Law};
use crate::pairings::{check_spent, check_state};
use crate::refused::{check_never_started, refusal_of};
use crate::runs::{Inside, is_report_right};
use crate::snapshot::Snapshot;
use crate::state::State;
use crate::terms::{Layers, Terms};
use auction::{Answer, Call, Ending, Report};
use hall::{Hall, replay};
use refusals::Refusal;
use sources::Source;
use std::fmt;

// How many calls are replayed before the others are performed.
const PART: usize = CALLS / 2;

// Which law was broken, under which layers, and by which call of the list.
#[derive(Clone, Copy, Debug)]
pub(crate) struct Failure {
    law: Law,
    layers: Layers,
    number: usize,
    call: Call,
}

impl fmt::Display for Failure {
    fn fmt<W: fmt::Write>(&self, f: &mut fmt::Formatter<W>) -> fmt::Result {
        let Failure {
            law,
            layers,
            number,
            call,
        } = *self;
        write!(
            f,
            "{layers}, call {number}, {call}: broken: {law} ({law:?})"
        )
    }
}

// A source with the calls that are made on it.
#[derive(Drop)]
pub(crate) struct Course<'a, S: Source + Drop> {
    pub(crate) source: &'a S,
    pub(crate) terms: &'a Terms,
    pub(crate) calls: &'a [Call; CALLS],
}

impl<S: Source + Drop> Course<'_, S> {
    // A run, with all that happens inside it.
    fn after_run(
        &self,
        checks: &mut Checks,
        before: &State,
        number: usize,
        (depth, budget): (usize, u64),
        report: Report,
        told: Snapshot,
    ) -> Result<State, Law> {
        let is_right = is_report_right(&before.told, &told, (depth, budget), report);
        checks.hold(Law::Report, is_right)?;
        let calls = self.calls;
        let inside = Inside {
            source: self.source,
            terms: self.terms,
            calls: calls.get(..number).unwrap_or(calls),
            depth,
        };
        let after = inside.after_run(checks, before, report.steps)?;
        checks.hold(Law::Steps, after.told == told)?;
        if report.ending == Ending::Spent {
            check_spent(checks, self.terms, &after)?;
        }
        Ok(after)
    }

    // An accepted call on a started hall, after which the hall tells this; gives the state after it.
    fn after_call(
        &self,
        checks: &mut Checks,
        before: &State,
        number: usize,
        call: Call,
        answer: Answer,
        told: Snapshot,
    ) -> Result<State, Law> {
        if let Some(act) = act_of(call) {
            return after_act(checks, self.terms, before, act, answer, told);
        }
        match (call, answer) {
            (Call::Run { depth, budget }, Answer::Ran(report)) => self.after_run(
                checks,
                before,
                number,
                (depth, budget),
                report,
                told,
            ),
            _ => {
                checks.hold(Law::Answer, is_told(&before.told, call, answer))?;
                checks.hold(Law::Unaltered, told == before.told)?;
                Ok(*before)
            }
        }
    }

    // Checks a call that the hall has answered; gives the state after it, if the hall was started.
    fn check_call(
        &self,
        checks: &mut Checks,
        hall: &mut Hall<&S>,
        before: Option<State>,
        number: usize,
        (call, answer): (Call, Result<Answer, Refusal>),
    ) -> Result<Option<State>, Law> {
        let told_before = before.map(|state| state.told);
        let refusal = refusal_of(self.terms, told_before.as_ref(), call);
        checks.hold(Law::Refusal, answer.err() == refusal)?;
        let begun = match (call, answer) {
            (Call::Start { step, lanes }, Ok(_)) => Some(State::started(self.terms, step, lanes)),
            _ => before,
        };
        let Some(begun) = begun else {
            check_never_started(checks, hall)?;
            return Ok(None);
        };
        let told = Snapshot::ask(hall, self.terms).map_err(|_| Law::Answer)?;
        let after = match (call, answer) {
            (Call::Start { .. }, Ok(answer)) => {
                let is_fresh = answer == Answer::Accepted && told == begun.told;
                checks.hold(Law::Start, is_fresh)?;
                begun
            }
            (_, Ok(answer)) => self.after_call(checks, &begun, number, call, answer, told)?,
            (_, Err(_)) => {
                checks.hold(Law::Unaltered, told == begun.told)?;
                begun
            }
        };
        check_state(checks, self.terms, &after)?;
        Ok(Some(after))
    }

    // The failure of a law at a call.
    fn failure(&self, law: Law, number: usize) -> Failure {
        let calls = self.calls;
        Failure {
            law,
            layers: self.terms.layers,
            number,
            call: calls.get(number).copied().unwrap_or(Call::AllCounts),
        }
    }

    // Makes the calls one by one on a new hall, and checks after each what has to hold.
    fn play(&self, checks: &mut Checks) -> Result<Answers, Failure> {
        let mut hall = Hall::new(self.source);
        let mut answers = NO_ANSWERS;
        let mut state = None;
        let calls = self.calls;
        let places = calls.iter().zip(answers.iter_mut());
        for (number, (call, answer)) in places.enumerate() {
            *answer = hall.perform(*call);
            state = self
                .check_call(checks, &mut hall, state, number, (*call, *answer))
                .map_err(|law| self.failure(law, number))?;
        }
        Ok(answers)
    }

    // The answers of a replay of the calls.
    pub(crate) fn replayed(&self) -> Answers {
        let mut answers = NO_ANSWERS;
        let calls = self.calls;
        let _ = replay(self.source, calls, &mut answers);
        answers
    }

    // The answers of a replay of the first calls, and of the others performed on the hall that it gives.
    fn in_parts(&self) -> Answers {
        let mut answers = NO_ANSWERS;
        let calls = self.calls;
        let (first, rest) = calls.split_at(PART);
        let (first_answers, rest_answers) = answers.split_at_mut(PART);
        let (mut hall, _) = replay(self.source, first, first_answers);
        let _ = hall.perform_all(rest, rest_answers);
        answers
    }

    // Checks that these are the answers of the calls made one by one.
    fn check_same(
        &self,
        checks: &mut Checks,
        law: Law,
        answers: &Answers,
        again: &Answers,
    ) -> Result<(), Failure> {
        let differs = answers
            .iter()
            .zip(again)
            .position(|(one, other)| one != other);
        checks
            .hold(law, differs.is_none())
            .map_err(|law| self.failure(law, differs.unwrap_or(0)))
    }

    // Plays the calls; a replay gives the same answers.
    pub(crate) fn check(&self, checks: &mut Checks) -> Result<(), Failure> {
        let answers = self.play(checks)?;
        self.check_same(checks, Law::Replay, &answers, &self.replayed())?;
        self.check_same(checks, Law::Parts, &answers, &self.in_parts())
    }
}

// Whether a question is answered with what the hall tells.
fn is_told(told: &Snapshot, call: Call, answer: Answer) -> bool {
    match (call, answer) {
        (Call::PriceOf(job), Answer::Price(price)) => price == told.price(job),
        (Call::HolderOf(job), Answer::Holder(holder)) => holder == told.holder(job),
        (Call::StandingOf(carrier), Answer::Stands(standing)) => standing == told.standing(carrier),
        (Call::TotalWorth, Answer::Worth(worth)) => worth == told.worth,
        (Call::AllCounts, Answer::Counted(counts)) => counts == told.counts,
        _ => false,
    }
}
