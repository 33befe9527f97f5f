//! What every source tells and promises.
ghost use Rattle.std.specs.Prelude.{◌≡◌, ℕ, Bool, length, slice_index_or, take, drop, fold, IfSome};
ghost use Rattle.sources.specs.declared.records.Entry.{Entry};
ghost use Rattle.sources.specs.Meaning.{Meaning, Sound, row_len, row_of, entry_at};
ghost use Rattle.sources.specs.StoredRows.{RowStored};

use crate::records::{Entry, StoredRow};
use crate::showing::{show_asked, show_stored};
use crate::visitors::Visitor;

/// A source of worth. The five questions, down to `entry`, are told by its meaning, and no call alters it.
/// An entry of worth 0 counts as no entry.
pub trait Source {
    // The numbers of carriers and jobs, the ceiling, and a row of pairs of job and worth for each carrier.
    ghost meaning: { Self → Meaning };

    // What each source proves: jobs rise along a row and are known, no worth exceeds the ceiling, no ceiling 2^60.
    ghost sound: { (s : Self) → Sound (meaning s) };

    // That this entry of a table is stored for a place of a carrier's row: `entry_made` makes the row's entry of it, by the quick way
    // (`true`) or by the exact one (`false`).
    ghost entry_stored: { Self → ℕ → ℕ → Bool → Entry → Type 0 } = { λ _ _ _ _ _. Unit {0} };

    /// The number of carriers.
    fn carriers(&self) -> usize
        ensures { result ≡ (meaning self.now).carriers };

    /// The number of jobs.
    fn jobs(&self) -> usize
        ensures { result ≡ (meaning self.now).jobs };

    /// What no worth exceeds.
    fn ceiling(&self) -> u64
        ensures { result ≡ (meaning self.now).ceiling };

    /// How many entries the carrier's row has; `None` past the last carrier.
    fn row_len(&self, carrier: usize) -> Option<usize>
        ensures { result ≡ row_len (meaning self.now) carrier };

    /// The job and the worth at a place of the carrier's row; `None` where there is no such row or place.
    fn entry(&self, carrier: usize, index: usize) -> Option<(usize, u64)>
        ensures { result ≡ entry_at (meaning self.now) carrier index };

    /// The entries of a table that are stored for the carrier's row, one for each place. `None` where the source tells of no table for
    /// the row, as past the last carrier.
    fn stored_row(&self, carrier: usize) -> Option<StoredRow<'_>>
        ensures stored { let at = entry_stored self.now carrier in
            IfSome result (λ r. RowStored at r.entries.now r.quick (length (row_of (meaning self.now) carrier))) }
    {
        None
    }

    /// The job and the worth at a place of the carrier's row, made of the entry that is stored for it: by a quick way, which is right for
    /// a row that is told as quick, or by the exact one. Of any other entry it makes some pair.
    fn entry_made(&self, carrier: usize, index: usize, quick: bool, entry: Entry) -> (usize, u64)
        ensures { let row = row_of (meaning self.now) carrier in
            entry_stored self.now carrier index quick entry → result ≡ slice_index_or row index (0, 0) }
    {
        self.entry(carrier, index).unwrap_or((0, 0))
    }

    /// Shows a visitor the entries of the carrier's row from a place on, so many or as many as are left, in their order: made of those
    /// that are stored, where there are any, else asked for one by one.
    #[inline(always)]
    final fn visit<V: Visitor>(&self, carrier: usize, from: usize, count: usize, visitor: V) -> V
    where
        Self: Sized,
        ensures { result ≡ fold V.shown visitor (take count (drop from (row_of (meaning self.now) carrier))) }
    {
        let Some(row) = self.stored_row(carrier) else {
            return show_asked(self, carrier, from, count, visitor);
        };
        if from >= row.entries.len() {
            return visitor;
        }
        let part = &row.entries[from..from + count.min(row.entries.len() - from)];
        // The way is a constant in each of the two: neither asks for it once more at an entry.
        if row.quick {
            show_stored(self, carrier, from, true, part, visitor)
        } else {
            show_stored(self, carrier, from, false, part, visitor)
        }
    }
}
