//! What is printed of a replay.
ghost use Rattle.replaying.specs.Shown.{answer_line, answer_lines};
ghost use Rattle.std.specs.Prelude.{◌≡◌, ◌++◌, length, string_bytes, OnOk};

use auction::{Answer, Call};
use refusals::Refusal;
use std::alloc::AllocError;

// Adds to a text the line of a call and what it told.
fn append_line(
    text: &mut String,
    call: Call,
    told: Result<Answer, Refusal>,
) -> Result<(), AllocError>
    ensures { OnOk result (string_bytes text.new ≡ string_bytes text.old ++ answer_line call told) }
{
    match told {
        Ok(answer) => writeln!(text, "{call}: {answer}"),
        Err(refusal) => writeln!(text, "{call}: refused {refusal}"),
    }
}

// Adds to a text a line for each call, with what it told.
pub(crate) fn append_lines(
    text: &mut String,
    calls: &[Call],
    answers: &[Result<Answer, Refusal>],
) -> Result<(), AllocError>
    ensures { OnOk result (string_bytes text.new ≡ string_bytes text.old ++ answer_lines calls.now answers.now) }
{
    for (call, told) in calls.iter().zip(answers) {
        append_line(text, *call, *told)?;
    }
    Ok(())
}
