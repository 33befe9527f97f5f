//! How a visitor is shown a part of a row.
ghost use Rattle.std.specs.Prelude.{◌≡◌, ℕ, ◌+◌, ◌-◌, ◌^◌, ◌<◌, ◌≤◌, length, min, slice_index_or, take, drop, fold};
ghost use Rattle.sources.specs.Meaning.{row_of};
ghost use Rattle.sources.specs.Sheets.{no_entry};

use crate::questions::Source;
use crate::records::Entry;
use crate::visitors::Visitor;
use std::ops::Range;

// Shows the visitor a part of a row whose entries are asked for one by one.
pub(crate) fn show_asked<S: Source, V: Visitor>(
    source: &S,
    carrier: usize,
    from: usize,
    count: usize,
    visitor: V,
) -> V
    ensures { result ≡ fold V.shown visitor (take count (drop from (row_of (S.Source.meaning source.now) carrier))) }
{
    let part = part_of(source.row_len(carrier).unwrap_or(0), from, count);
    let mut visitor = visitor;
    for index in part.start..part.end {
        let entry = source.entry(carrier, index).unwrap_or((0, 0));
        visitor = visitor.see(entry);
    }
    visitor
}

// The places of a row of so many entries from one on: so many, or as many as are left.
fn part_of(entries: usize, from: usize, count: usize) -> Range<usize>
    ensures start { result.start ≡ min from entries }
    ensures end { result.end ≡ result.start + min count (entries - result.start) }
{
    let start = from.min(entries);
    start..start + count.min(entries - start)
}

// Shows the visitor the part of a row, from a place on, for which these entries are stored. Eight, as a look of eight lanes has, are
// shown with no count kept from one to the next: a look takes three instructions an entry less for it.
#[inline(always)]
pub(crate) fn show_stored<S: Source, V: Visitor>(
    source: &S,
    carrier: usize,
    from: usize,
    quick: bool,
    entries: &[Entry],
    visitor: V,
) -> V
    requires inside { from + length entries.now ≤ length (row_of (S.Source.meaning source.now) carrier) }
    requires fits { from + length entries.now < 2 ^ 64 }
    requires stored { (k : ℕ) → k < length entries.now
        → S.Source.entry_stored source.now carrier (from + k) quick (slice_index_or entries.now k no_entry) }
    ensures { let row = row_of (S.Source.meaning source.now) carrier in
        result ≡ fold V.shown visitor (take (length entries.now) (drop from row)) }
{
    if let [a, b, c, d, e, f, g, h] = entries {
        let visitor = visitor.see(source.entry_made(carrier, from, quick, *a));
        let visitor = visitor.see(source.entry_made(carrier, from + 1, quick, *b));
        let visitor = visitor.see(source.entry_made(carrier, from + 2, quick, *c));
        let visitor = visitor.see(source.entry_made(carrier, from + 3, quick, *d));
        let visitor = visitor.see(source.entry_made(carrier, from + 4, quick, *e));
        let visitor = visitor.see(source.entry_made(carrier, from + 5, quick, *f));
        let visitor = visitor.see(source.entry_made(carrier, from + 6, quick, *g));
        return visitor.see(source.entry_made(carrier, from + 7, quick, *h));
    }
    let mut visitor = visitor;
    let mut index = from;
    for entry in entries {
        visitor = visitor.see(source.entry_made(carrier, index, quick, *entry));
        index += 1;
    }
    visitor
}
