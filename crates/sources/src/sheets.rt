//! A source over two lent tables: where each row starts, and the entries of all rows. It is filled from a heading and these tables.
ghost use Rattle.std.specs.Prelude.{◌≡◌, true, false, ◌||◌, length, is_some, is_ok, if◌then◌else◌, map, IfSome};
ghost use Rattle.std.specs.List.{slice_get};
ghost use Rattle.std.specs.Option.{option_map};
ghost use Rattle.sources.specs.Laws.SheetSound.{sheet_sound};
ghost use Rattle.sources.specs.Meaning.{empty_meaning, row_of};
ghost use Rattle.sources.specs.Sheets.{within_limits, blank, starts_good, entry_refusal, fill_verdict, entries_in_rows, sheet_rows, sheet_entry, sheet_of};
ghost use Rattle.sources.specs.StoredRows.{RowStored};
ghost use Rattle.sources.specs.Tables.{FillsExactly};

use crate::filling_checks::fill_verdict;
use crate::questions::Source;
use crate::records::{Entry, Heading, StoredRow};
use refusals::Refusal;

/// A source over two lent tables: the row of carrier i begins at start i and ends before start i + 1. What filling checked holds of
/// every sheet.
#[derive(Drop)]
pub struct Sheet<'a> {
    heading: Heading,
    starts: &'a [usize],
    entries: &'a [Entry],
    ghost limited: { (within_limits heading || blank heading) ≡ true },
    ghost started: { starts_good heading starts.now (length entries.now) ≡ true },
    ghost faultless: { is_some (entry_refusal heading starts.now (entries_in_rows heading starts.now entries.now)) ≡ false },
}

impl<'a> Sheet<'a> {
    ghost use Rattle.sources.specs.OfSheet.{sheet_meaning};

    /// A sheet with no carriers, no jobs and ceiling 0.
    pub fn new() -> Sheet<'a>
        ensures { sheet_meaning result ≡ empty_meaning }
    {
        let heading = Heading {
            carriers: 0,
            jobs: 0,
            ceiling: 0,
        };
        Sheet {
            heading,
            starts: &[0],
            entries: &[],
        }
    }

    /// Takes the heading and the tables if they make a sheet; else the sheet stays as it was.
    pub fn fill(
        &mut self,
        heading: Heading,
        starts: &'a [usize],
        entries: &'a [Entry],
    ) -> Result<(), Refusal>
        ensures verdict { result ≡ fill_verdict heading starts.now entries.now }
        ensures means { let filled = sheet_of heading starts.now entries.now in
            sheet_meaning self.new ≡ (if is_ok result then filled else sheet_meaning self.old) }
        ensures refused { is_ok result ≡ false → self.new ≡ self.old }
        ensures exact { FillsExactly heading starts.now entries.now result (sheet_meaning self.new) }
    {
        fill_verdict(heading, starts, entries)?;
        *self = Sheet {
            heading,
            starts,
            entries,
        };
        Ok(())
    }

    // The carrier's row; `None` past the last carrier.
    fn row(&self, carrier: usize) -> Option<&[Entry]>
        ensures { let s = self.now in
            option_map (λ x. x.now) result ≡ slice_get (sheet_rows s.heading s.starts.now s.entries.now) carrier }
    {
        if carrier < self.heading.carriers {
            Some(&self.entries[self.starts[carrier]..self.starts[carrier + 1]])
        } else {
            None
        }
    }
}

impl Source for Sheet<'_> {
    ghost meaning = { λ s. sheet_of s.heading s.starts.now s.entries.now };

    ghost sound = { λ s. sheet_sound s.heading s.starts.now s.entries.now s.limited s.started s.faultless };

    ghost entry_stored = { λ s i k _ e. e ≡ sheet_entry s.heading s.starts.now s.entries.now i k };

    fn carriers(&self) -> usize {
        self.heading.carriers
    }

    fn jobs(&self) -> usize {
        self.heading.jobs
    }

    fn ceiling(&self) -> u64 {
        self.heading.ceiling
    }

    fn row_len(&self, carrier: usize) -> Option<usize> {
        let row = self.row(carrier)?;
        Some(row.len())
    }

    fn entry(&self, carrier: usize, index: usize) -> Option<(usize, u64)> {
        let entry = self.row(carrier)?.get(index)?;
        Some((entry.job, entry.worth))
    }

    #[inline(always)]
    fn stored_row(&self, carrier: usize) -> Option<StoredRow<'_>>
        ensures stored { let s = self.now in let row = row_of (sheet_of s.heading s.starts.now s.entries.now) carrier in
            IfSome result (λ r. RowStored (λ k _ e. e ≡ sheet_entry s.heading s.starts.now s.entries.now carrier k) r.entries.now r.quick (length row)) }
        ensures table { let s = self.now in
            option_map (λ r. r.entries.now) result ≡ slice_get (sheet_rows s.heading s.starts.now s.entries.now) carrier }
        ensures quick { IfSome result (λ r. r.quick ≡ true) }
    {
        let entries = self.row(carrier)?;
        Some(StoredRow {
            entries,
            quick: true,
        })
    }

    #[inline(always)]
    fn entry_made(
        &self,
        _carrier: usize,
        _index: usize,
        _quick: bool,
        entry: Entry,
    ) -> (usize, u64) {
        (entry.job, entry.worth)
    }
}
