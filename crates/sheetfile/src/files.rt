//! Whole files.
ghost use Rattle.std.specs.Prelude.{◌≡◌, length, IfOk, Ok};
ghost use Rattle.numbers.specs.Writing.{over};
ghost use Rattle.sheetfile.specs.Laws.{LoadsEveryWithin, LoadsExactly};
ghost use Rattle.sheetfile.specs.Layout.{SheetFile};
ghost use Rattle.sources.specs.Meaning.{Meaning};
ghost use Rattle.sheetfile.specs.Reading.{loaded, loaded_within};
ghost use Rattle.sheetfile.specs.Steps.{and_then, updated};
ghost use Rattle.sheetfile.specs.Tables.{entries_after, heading_answer, sheet_in, starts_after};
ghost use Rattle.sources.specs.OfSheet.{sheet_meaning};
ghost use Rattle.sources.specs.Tables.{entries_of, starts_of};
ghost use Rattle.std.specs.Result.{result_map_both};

use crate::loader::Bare;
use crate::reader::Reader;
use refusals::{Fault, Refusal};
use sources::{Entry, Heading, MOST_CARRIERS, Sheet};

/// The most bytes of a file that the programs and the call for C hosts read.
pub const MOST_BYTES: usize = 32768;

/// The most entries of such a file.
pub const MOST_ENTRIES: usize = 4096;

/// The most row starts: one for each carrier, and one more.
pub const MOST_STARTS: usize = MOST_CARRIERS + 1;

// Whether a file loads into tables of such lengths; no table is written.
pub(crate) fn survey(bytes: &[u8], starts: usize, room: usize) -> Result<Heading, Fault>
    ensures { result ≡ heading_answer (loaded bytes.now starts room) }
{
    let mut reader = Reader::new(bytes);
    let heading = reader.heading(starts)?;
    let mut used = 0;
    for _i in 0..heading.carriers {
        let count = reader.row_in(heading, &mut [], room, used)?;
        used += count;
    }
    reader.total(used)?;
    Ok(heading)
}

// Loads a file into the tables that it was surveyed for, and gives its heading: it is not refused.
pub(crate) fn load_surveyed(
    bytes: &[u8],
    surveyed: Heading,
    starts: &mut [usize],
    entries: &mut [Entry],
) -> Result<Heading, Fault>
    requires { Ok surveyed ≡ heading_answer (loaded bytes.now (length starts.old) (length entries.old)) }
    ensures answer { result ≡ Ok surveyed }
    ensures starts { starts.new ≡ starts_after bytes.now starts.old (length entries.old) }
    ensures entries { entries.new ≡ entries_after bytes.now (length starts.old) entries.old }
    ensures exact { LoadsExactly bytes.now starts.old entries.old result starts.new entries.new }
{
    let mut loader = Bare::new(bytes).read_heading(starts)?;
    for _i in 0..surveyed.carriers {
        loader.read_known_row(starts, entries)?;
    }
    Ok(loader.close()?.heading())
}

/// Loads a whole file into the tables, and gives its heading: the sheet over the tables then means the file. Where it is
/// refused, the tables stay as they were.
pub fn load(bytes: &[u8], starts: &mut [usize], entries: &mut [Entry]) -> Result<Heading, Fault>
    ensures answer { result ≡ heading_answer (loaded bytes.now (length starts.old) (length entries.old)) }
    ensures starts { starts.new ≡ starts_after bytes.now starts.old (length entries.old) }
    ensures entries { entries.new ≡ entries_after bytes.now (length starts.old) entries.old }
    ensures exact { LoadsExactly bytes.now starts.old entries.old result starts.new entries.new }
    ensures filling { and_then result (λ h. sheet_in h starts.new entries.new) ≡ loaded bytes.now (length starts.old) (length entries.old) }
{
    let surveyed = survey(bytes, starts.len(), entries.len())?;
    load_surveyed(bytes, surveyed, starts, entries)
}

// Loads a whole file into the tables in one reading, and gives its heading: the sheet over the tables then means the file.
// Where it is refused, the tables hold what was read until then: so it is for tables of one's own (`OwnTables`) alone.
pub(crate) fn load_over(
    bytes: &[u8],
    starts: &mut [usize],
    entries: &mut [Entry],
) -> Result<Heading, Fault>
    ensures answer { result ≡ heading_answer (loaded bytes.now (length starts.old) (length entries.old)) }
    ensures filling { and_then result (λ h. sheet_in h starts.new entries.new) ≡ loaded bytes.now (length starts.old) (length entries.old) }
{
    let room = entries.len();
    let mut reader = Reader::new(bytes);
    let heading = reader.heading(starts.len())?;
    starts[0] = 0;
    let mut used = 0;
    for i in 0..heading.carriers {
        let count = reader.row_in(heading, &mut entries[used..], room, used)?;
        used += count;
        starts[i + 1] = used;
    }
    reader.total(used)?;
    Ok(heading)
}

/// The sheet over tables that hold one: of the starts, the first carriers + 1. It is refused as filling is, and never where
/// a load gave the heading and wrote the tables.
pub fn sheet_over<'a>(
    heading: Heading,
    starts: &'a [usize],
    entries: &'a [Entry],
) -> Result<Sheet<'a>, Fault>
    ensures { result_map_both sheet_meaning (λ e. e) result ≡ sheet_in heading starts.now entries.now }
{
    let front = starts.get(..=heading.carriers).unwrap_or(starts);
    let mut sheet = Sheet::new();
    sheet.fill(heading, front, entries)?;
    Ok(sheet)
}

/// Loads a file of at most 32,768 bytes into tables for 128 carriers and 4,096 entries, and gives its heading: the sheet
/// over the tables then means the file. A longer file is refused before any of its bytes is read. Where it is refused, the
/// tables stay as they were.
pub fn load_within(
    bytes: &[u8],
    starts: &mut [usize; MOST_STARTS],
    entries: &mut [Entry; MOST_ENTRIES],
) -> Result<Heading, Fault>
    ensures answer { result ≡ heading_answer (loaded_within bytes.now) }
    ensures starts { starts.new ≡ updated (loaded_within bytes.now) starts.old (λ m. over starts.old 0 (starts_of m.rows)) }
    ensures entries { entries.new ≡ updated (loaded_within bytes.now) entries.old (λ m. over entries.old 0 (entries_of m.rows)) }
    ensures filling { and_then result (λ h. sheet_in h starts.new entries.new) ≡ loaded_within bytes.now }
    ensures file { IfOk result (λ h. (m : Meaning) × SheetFile bytes.now m × (sheet_in h starts.new entries.new ≡ Ok m)) }
    ensures every { LoadsEveryWithin bytes.now result starts.new entries.new }
{
    if bytes.len() > MOST_BYTES {
        return Err(Fault::bare(Refusal::TooShort));
    }
    load(bytes, starts, entries)
}
