//! Tables of one's own for a sheet, with the sheet that was loaded into them last.
ghost use Rattle.std.specs.Prelude.{◌≡◌, length};
ghost use Rattle.sources.specs.Meaning.{empty_meaning};
ghost use Rattle.sources.specs.OfSheet.{sheet_meaning};
ghost use Rattle.sheetfile.specs.Limits.{most_starts};
ghost use Rattle.sheetfile.specs.Reading.{loaded};
ghost use Rattle.sheetfile.specs.Steps.{updated, without_value};
ghost use Rattle.sheetfile.specs.Tables.{sheet_held};

use crate::files::{MOST_STARTS, load, load_over, sheet_over};
use refusals::Fault;
use sources::{Entry, Heading, Sheet};

/// Both tables of a sheet, with room for 128 carriers and so many entries. What they hold is a sheet; nothing else of them can be seen.
#[derive(Drop)]
pub struct OwnTables<const ENTRIES: usize> {
    heading: Heading,
    starts: [usize; MOST_STARTS],
    entries: [Entry; ENTRIES],
}

impl<const ENTRIES: usize> OwnTables<ENTRIES> {
    /// Tables that hold the sheet with no carriers, no jobs and ceiling 0.
    pub fn new() -> Self
        ensures { sheet_held result.heading result.starts result.entries ≡ empty_meaning }
    {
        OwnTables {
            heading: Heading {
                carriers: 0,
                jobs: 0,
                ceiling: 0,
            },
            starts: [0; MOST_STARTS],
            entries: [Entry { job: 0, worth: 0 }; ENTRIES],
        }
    }

    /// Loads a whole file: they then hold its sheet. Refused as `load` is; they then hold the sheet that they held.
    pub fn load(&mut self, bytes: &[u8]) -> Result<(), Fault>
        ensures answer { result ≡ without_value (loaded bytes.now most_starts ENTRIES) }
        ensures holds { let held = sheet_held self.old.heading self.old.starts self.old.entries in
            sheet_held self.new.heading self.new.starts self.new.entries ≡ updated (loaded bytes.now most_starts ENTRIES) held (λ m. m) }
    {
        // Where no sheet is held that a refused load would have to leave, one reading does.
        self.heading = if self.heading.carriers == 0 {
            load_over(bytes, &mut self.starts, &mut self.entries)?
        } else {
            load(bytes, &mut self.starts, &mut self.entries)?
        };
        Ok(())
    }

    /// The sheet that they hold.
    pub fn sheet(&self) -> Sheet<'_>
        ensures { sheet_meaning result ≡ sheet_held self.now.heading self.now.starts self.now.entries }
    {
        sheet_over(self.heading, &self.starts, &self.entries).unwrap_or(Sheet::new())
    }
}
