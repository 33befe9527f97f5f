//! What follows from the answers of any source.
ghost use Rattle.std.specs.Prelude.{◌≡◌, length};
ghost use Rattle.std.specs.Iterator.{YieldsFirst, item_count};
ghost use Rattle.sources.specs.Meaning.{row_of, row_behind};
ghost use Rattle.sources.specs.Tables.{heading_of};

use crate::questions::Source;
use crate::records::Heading;
use std::ops::Range;

/// The three numbers of a source.
pub fn heading_of<S: Source>(source: &S) -> Heading
    ensures { result ≡ heading_of (S.Source.meaning source.now) }
{
    Heading {
        carriers: source.carriers(),
        jobs: source.jobs(),
        ceiling: source.ceiling(),
    }
}

/// How many entries the carrier's row has; none past the last carrier.
pub fn row_length<S: Source>(source: &S, carrier: usize) -> usize
    ensures { result ≡ length (row_of (S.Source.meaning source.now) carrier) }
{
    source.row_len(carrier).unwrap_or(0)
}

/// The entries of a carrier's row from a place on, in their order.
#[derive(Drop)]
pub struct RowEntries<'a, S: Source> {
    source: &'a S,
    carrier: usize,
    places: Range<usize>,
    ghost whole: { places.end ≡ length (row_of (S.Source.meaning source.now) carrier) },
}

/// The entries of a carrier's row; none past the last carrier.
pub fn entries<S: Source>(source: &S, carrier: usize) -> RowEntries<'_, S>
    ensures { row_behind (S.meaning result.source.now) result.carrier result.places.start ≡ row_of (S.meaning source.now) carrier }
{
    entries_from(source, carrier, 0)
}

/// The same from a place on.
pub fn entries_from<S: Source>(source: &S, carrier: usize, place: usize) -> RowEntries<'_, S>
    ensures { row_behind (S.meaning result.source.now) result.carrier result.places.start
        ≡ row_behind (S.meaning source.now) carrier place }
{
    let places = place..row_length(source, carrier);
    RowEntries {
        source,
        carrier,
        places,
    }
}

impl<S: Source> Iterator for RowEntries<'_, S> {
    type Item = (usize, u64);

    ghost next_gives = { YieldsFirst (λ s. row_behind (S.Source.meaning s.source.now) s.carrier s.places.start) };

    ghost remaining = { item_count (λ s. row_behind (S.Source.meaning s.source.now) s.carrier s.places.start) };

    fn next(&mut self) -> Option<(usize, u64)> {
        let place = self.places.next()?;
        self.source.entry(self.carrier, place)
    }
}
