//! A file that is loaded and written again.
ghost use Rattle.std.specs.Prelude.{◌≡◌, length};
ghost use Rattle.sheetfile.specs.Steps.{updated};
ghost use Rattle.sheetfile.specs.Tables.{entries_after, starts_after};
ghost use Rattle.sheetfile.specs.Writing.{out_after, rewrite_answer};

use crate::files::{load_surveyed, sheet_over, survey};
use crate::writer::write;
use refusals::{Fault, Refusal};
use sources::Entry;

/// Loads a file into the tables and writes it again. What is accepted comes out as the same bytes, so a buffer that is
/// shorter than they are is refused before anything is written. Where it is refused, the tables and the buffer stay as
/// they were.
pub fn rewrite(
    bytes: &[u8],
    starts: &mut [usize],
    entries: &mut [Entry],
    out: &mut [u8],
) -> Result<usize, Fault>
    ensures answer { result ≡ rewrite_answer bytes.now (length starts.old) (length entries.old) (length out.old) }
    ensures after { out.new ≡ out_after result out.old bytes.now }
    ensures starts { starts.new ≡ updated result starts.old (λ _. starts_after bytes.now starts.old (length entries.old)) }
    ensures entries { entries.new ≡ updated result entries.old (λ _. entries_after bytes.now (length starts.old) entries.old) }
{
    let surveyed = survey(bytes, starts.len(), entries.len())?;
    if out.len() < bytes.len() {
        return Err(Fault::bare(Refusal::TooShort));
    }
    let heading = load_surveyed(bytes, surveyed, starts, entries)?;
    let sheet = sheet_over(heading, starts, entries)?;
    let len = write(&sheet, out)?;
    Ok(len)
}
