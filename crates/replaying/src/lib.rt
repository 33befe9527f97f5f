//! Replays a log of calls on a hall over a sheet file.
#![tactic(auto)]

ghost use Rattle.replaying.specs.Logs.{asked_in};
ghost use Rattle.replaying.specs.Outcomes.{Replays, Tells, replayed};
ghost use Rattle.replaying.specs.ReadBack.{ReadsBack};
ghost use Rattle.sheetfile.specs.Reading.{loaded_within};
ghost use Rattle.std.specs.Prelude.{IfOk};

use crate::log::{Trouble, read_log};
use crate::printing::append_lines;
use crate::running::perform_layered;
use sheetfile::{MOST_ENTRIES, MOST_STARTS, load_within, sheet_over};
use sources::Entry;
use std::alloc::{AllocError, Global};
use texts::{Failure, Printed};

mod line;
pub mod log;
mod printing;
mod running;

/// Reads a log and a sheet file, performs the calls of the log on a new hall over the sheet, under the layers of the log,
/// and prints each call with its answer. What is printed of a call is read back as that call. It fails only for want of
/// memory.
#[tactic(auto, using(crate::proofs::PlainForms::reads_back))]
pub fn replay_log(heap: Global, sheet: &[u8], text: &[u8]) -> Result<Printed<Trouble>, AllocError>
    ensures outcome { IfOk result (λ p. Tells p (replayed (asked_in text.now) (loaded_within sheet.now))) }
    ensures read_back { ReadsBack }
{
    Printed::telling(heap, "", replayed(heap, sheet, text))
}

// The lines of a replay: each call with its answer.
fn replayed(heap: Global, sheet: &[u8], text: &[u8]) -> Result<String, Failure<Trouble>>
    ensures { Replays (replayed (asked_in text.now) (loaded_within sheet.now)) result }
{
    let log = read_log(heap, text)?;
    // Arrays of these two sizes, since `load_within` asks for them.
    let mut starts = [0usize; MOST_STARTS];
    let mut entries = [Entry { job: 0, worth: 0 }; MOST_ENTRIES];
    let heading = load_within(sheet, &mut starts, &mut entries).map_err(Trouble::Sheet)?;
    let source = sheet_over(heading, &starts, &entries).map_err(Trouble::Sheet)?;
    let answers = perform_layered(heap, source, log.layers, &log.calls)?;
    let mut lines = String::new(heap);
    append_lines(&mut lines, &log.calls, &answers)?;
    Ok(lines)
}
