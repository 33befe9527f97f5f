//! A lent source is a source, and means what the source means.
use crate::questions::Source;
use crate::records::{Entry, StoredRow};

impl<S: Source> Source for &S {
    ghost meaning = { λ s. S.Source.meaning s.now };

    ghost sound = { λ s. S.Source.sound s.now };

    ghost entry_stored = { λ s. S.Source.entry_stored s.now };

    fn carriers(&self) -> usize {
        (**self).carriers()
    }

    fn jobs(&self) -> usize {
        (**self).jobs()
    }

    fn ceiling(&self) -> u64 {
        (**self).ceiling()
    }

    fn row_len(&self, carrier: usize) -> Option<usize> {
        (**self).row_len(carrier)
    }

    fn entry(&self, carrier: usize, index: usize) -> Option<(usize, u64)> {
        (**self).entry(carrier, index)
    }

    #[inline(always)]
    fn stored_row(&self, carrier: usize) -> Option<StoredRow<'_>> {
        (**self).stored_row(carrier)
    }

    #[inline(always)]
    fn entry_made(&self, carrier: usize, index: usize, quick: bool, entry: Entry) -> (usize, u64) {
        (**self).entry_made(carrier, index, quick, entry)
    }
}
