//! A file that is loaded within the limits of the programs.
ghost use Rattle.std.specs.Prelude.{◌≡◌, ◌*◌, ◌≤◌, ◌⊎◌, length, IfOk};
ghost use Rattle.sheetfile.specs.Layout.{SheetFile};
ghost use Rattle.sheetfile.specs.Limits.{most_entries};
ghost use Rattle.sheetfile.specs.Reading.{loaded_within};
ghost use Rattle.sheetfile.specs.Steps.{updated, without_value};
ghost use Rattle.sheetfile.specs.Tables.{sheet_held};

use refusals::{Fault, Refusal};
use sheetfile::{MOST_BYTES, OwnTables};

// Loads a file within the limits of the programs, into tables that may be smaller where the file is short: each entry takes two
// bytes at least, so tables with a place for each two bytes have room enough. Where it is refused, they hold the sheet that they held.
pub(crate) fn load_own<const ENTRIES: usize>(
    bytes: &[u8],
    tables: &mut OwnTables<ENTRIES>,
) -> Result<(), Fault>
    requires room { ENTRIES ≡ most_entries ⊎ (length bytes.now ≤ 2 * ENTRIES) × (ENTRIES ≤ most_entries) }
    ensures answer { result ≡ without_value (loaded_within bytes.now) }
    ensures holds { let held = sheet_held tables.old.heading tables.old.starts tables.old.entries in
        sheet_held tables.new.heading tables.new.starts tables.new.entries ≡ updated (loaded_within bytes.now) held (λ m. m) }
    ensures file { IfOk result (λ _. SheetFile bytes.now (sheet_held tables.new.heading tables.new.starts tables.new.entries)) }
{
    if bytes.len() > MOST_BYTES {
        return Err(Fault::bare(Refusal::TooShort));
    }
    tables.load(bytes)
}
