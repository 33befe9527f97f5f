//! What `inspect` prints of a sheet file.
#![tactic(auto)]

ghost use Rattle.std.specs.Prelude.{◌≡◌, ◌++◌, length, IfOk, OnOk, string_bytes};
ghost use Rattle.inspection.specs.Inspected.{Lists, TellsListing, TellsFile};
ghost use Rattle.sheetfile.specs.Reading.{loaded, loaded_within};
ghost use Rattle.inspection.specs.Listing.{row_line, sheet_text};
ghost use Rattle.sources.specs.Meaning.{row_of};
ghost use Rattle.sources.specs.OfSheet.{sheet_meaning};

use refusals::{Fault, Refusal};
use sheetfile::{MOST_STARTS, load, sheet_over};
use sources::{Entry, Heading, Sheet, Source, entries, heading_of, row_length};
use std::alloc::{AllocError, Global};
use texts::{Failure, Printed};

// The most bytes that are inspected, and the most entries of a sheet that is.
pub use sheetfile::{MOST_BYTES, MOST_ENTRIES};

/// Loads some bytes as a sheet file, and lists what it holds. Written again it would be the same bytes, as the text says:
/// that is proved, so it is not tried. More than 32,768 bytes are refused before any is read. It fails only for want of
/// memory.
pub fn inspect_sheet(heap: Global, bytes: &[u8]) -> Result<Printed<Fault>, AllocError>
    ensures told { IfOk result (λ p. TellsListing p (length bytes.now) (loaded_within bytes.now)) }
    ensures file { IfOk result (λ p. TellsFile p bytes.now) }
{
    Printed::telling(heap, "refused ", listed(heap, bytes))
}

// The lines of a sheet file, within the limits.
fn listed(heap: Global, bytes: &[u8]) -> Result<String, Failure<Fault>>
    ensures { Lists (length bytes.now) (loaded_within bytes.now) result }
{
    if bytes.len() > MOST_BYTES {
        return Err(Failure::Refused(Fault::bare(Refusal::TooShort)));
    }
    let mut starts = vec![in heap; 0usize; MOST_STARTS]?;
    let mut entries = vec![in heap; Entry { job: 0, worth: 0 }; MOST_ENTRIES]?;
    list_file(heap, bytes, &mut starts, &mut entries)
}

// The lines of a sheet file, which is loaded into the tables.
fn list_file(
    heap: Global,
    bytes: &[u8],
    starts: &mut [usize],
    entries: &mut [Entry],
) -> Result<String, Failure<Fault>>
    ensures { Lists (length bytes.now) (loaded bytes.now (length starts.old) (length entries.old)) result }
{
    let heading = load(bytes, starts, entries).map_err(Failure::Refused)?;
    let sheet = sheet_over(heading, starts, entries).map_err(Failure::Refused)?;
    Ok(list_sheet(heap, &sheet, bytes.len())?)
}

// The lines of a sheet that has so many bytes.
fn list_sheet(heap: Global, sheet: &Sheet<'_>, size: usize) -> Result<String, AllocError>
    ensures { IfOk result (λ text. string_bytes text ≡ sheet_text (sheet_meaning sheet.now) size) }
{
    let Heading {
        carriers,
        jobs,
        ceiling,
    } = heading_of(sheet);
    let mut text = String::new(heap);
    writeln!(text, "carriers {carriers} jobs {jobs} ceiling {ceiling}")?;
    let mut count = 0;
    for i in 0..carriers {
        append_row(&mut text, sheet, i)?;
        count += row_length(sheet, i);
    }
    writeln!(
        text,
        "{count} entries in {size} bytes, the same when written again"
    )?;
    Ok(text)
}

// Adds the line of a carrier to a text.
fn append_row<S: Source>(text: &mut String, source: &S, carrier: usize) -> Result<(), AllocError>
    ensures { let row = row_of (S.Source.meaning source.now) carrier in
        OnOk result (string_bytes text.new ≡ string_bytes text.old ++ row_line carrier row) }
{
    write!(text, "{carrier}:")?;
    for (job, worth) in entries(source, carrier) {
        write!(text, " {job}={worth}")?;
    }
    writeln!(text)
}
