//! A loader that passes through three states, each a type of its own: bare, headed, closed. The tables are lent to each call.
ghost use Rattle.std.specs.Prelude.{◌≡◌, ℕ, ◌+◌, ◌<◌, ◌≤◌, List, true, is_ok, IfOk, IsOkAnd, length, slice_index, slice_set, Ok};
ghost use Rattle.std.specs.Result.{result_map_both};
ghost use Rattle.sheetfile.specs.Begun.{Begun};
ghost use Rattle.sheetfile.specs.Layout.{SheetFile};
ghost use Rattle.sheetfile.specs.Readers.{value_of};
ghost use Rattle.sheetfile.specs.Steps.{updated, without_value};
ghost use Rattle.sheetfile.specs.Tables.{HoldsRows, row_count};
ghost use Rattle.sources.specs.Meaning.{Meaning};
ghost use Rattle.sources.specs.Tables.{heading_of};
ghost use Rattle.sources.specs.declared.records.Entry.{Entry};

use crate::reader::Reader;
use refusals::{Fault, Refusal};
use sources::{Entry, Heading};

/// A loader to which a step was refused. It is as it was, and can be used again.
#[derive(Drop)]
pub struct Refused<L> {
    pub loader: L,
    pub fault: Fault,
}

// What was refused, without the loader.
impl<L: Drop> From<Refused<L>> for Fault {
    ghost from_gives = { λ r f. f ≡ r.fault };

    fn from(refused: Refused<L>) -> Fault {
        refused.fault
    }
}

/// A loader that has read nothing yet.
#[derive(Drop)]
pub struct Bare<'a> {
    bytes: &'a [u8],
    ghost small: { (i : ℕ) → slice_index bytes.now i < 256 },
}

/// A loader that has read the heading, and so many rows with so many entries in all.
#[derive(Drop)]
pub struct Headed<'a> {
    reader: Reader<'a>,
    heading: Heading,
    rows: usize,
    used: usize,
    ghost begun: { ∥ Begun reader.bytes.now reader.at heading rows used ∥₁ },
}

/// A loader that has read the whole file.
#[derive(Drop)]
pub struct Closed {
    heading: Heading,
}

impl<'a> Bare<'a> {
    ghost use Rattle.sheetfile.specs.States.{first_heading, headed_by, stand};

    /// A loader of some bytes.
    pub fn new(bytes: &'a [u8]) -> Bare<'a>
        ensures { result.bytes.now ≡ bytes.now }
    {
        Bare { bytes }
    }

    /// Reads the heading, and writes start 0.
    pub fn read_heading(self, starts: &mut [usize]) -> Result<Headed<'a>, Refused<Bare<'a>>>
        ensures answer { result_map_both stand (λ e. e) result ≡ headed_by self.entry (first_heading self.entry (length starts.old)) }
        ensures starts { starts.new ≡ updated (first_heading self.entry (length starts.old)) starts.old (λ _. slice_set starts.old 0 0) }
        ensures every { (m : Meaning) → SheetFile self.entry.bytes.now m → m.carriers + 1 ≤ length starts.old
            → IsOkAnd result (λ l. l.heading ≡ heading_of m) }
        ensures held { IfOk result (λ _. (m : Meaning) (entries : List Entry) → HoldsRows m 0 starts.new entries) }
    {
        let mut reader = Reader::new(self.bytes);
        // A `match`: see docs/DECISIONS.md, "What the checker does not have".
        match reader.heading(starts.len()) {
            Err(fault) => Err(Refused {
                loader: self,
                fault,
            }),
            Ok(heading) => {
                starts[0] = 0;
                Ok(Headed {
                    reader,
                    heading,
                    rows: 0,
                    used: 0,
                })
            }
        }
    }
}

impl<'a> Headed<'a> {
    ghost use Rattle.sheetfile.specs.States.{ClosesExactly, ReadsInOrder, RowRead, closed_by, closing, next_row, stand};

    // How many entries the next row has, if tables of such lengths can take it.
    fn next_row(&self, starts: usize, room: usize) -> Result<usize, Fault>
        ensures { result ≡ value_of (row_count (next_row (stand self.now) starts room)) }
    {
        if self.rows >= self.heading.carriers {
            return Err(Fault::bare(Refusal::NoRowLeft));
        }
        let mut ahead = self.reader;
        let count = ahead.row_in(self.heading, &mut [], room, self.used)?;
        if starts <= self.rows + 1 {
            return Err(Fault::bare(Refusal::TooShort));
        }
        Ok(count)
    }

    /// Reads the next row, and writes its entries and the place where it ends, which is the next start.
    pub fn read_row(&mut self, starts: &mut [usize], entries: &mut [Entry]) -> Result<(), Fault>
        ensures answer { result ≡ without_value (next_row (stand self.old) (length starts.old) (length entries.old)) }
        ensures after { RowRead (stand self.old) (stand self.new) starts.old starts.new entries.old entries.new }
        ensures file { (m : Meaning) → SheetFile self.old.reader.bytes.now m
            → ReadsInOrder m (stand self.old) starts.old entries.old result starts.new entries.new }
    {
        let count = self.next_row(starts.len(), entries.len())?;
        // A row without entries needs no place, even in a table that ends before the rows that were read.
        let place = self.used.min(entries.len());
        self.reader
            .row(self.heading, &mut entries[place..place + count])?;
        self.used += count;
        self.rows += 1;
        starts[self.rows] = self.used;
        Ok(())
    }

    // The same of a row that is known to be accepted: its bytes are read once.
    pub(crate) fn read_known_row(
        &mut self,
        starts: &mut [usize],
        entries: &mut [Entry],
    ) -> Result<(), Fault>
        requires { is_ok (next_row (stand self.old) (length starts.old) (length entries.old)) ≡ true }
        ensures answer { result ≡ Ok tt }
        ensures after { RowRead (stand self.old) (stand self.new) starts.old starts.new entries.old entries.new }
    {
        let count = self.reader.announced()?;
        let low = self.used.min(entries.len());
        self.reader
            .row(self.heading, &mut entries[low..low + count])?;
        let end = self.used + count;
        self.rows += 1;
        starts[self.rows] = end;
        self.used = end;
        Ok(())
    }

    /// Ends the reading, if every row is read and the total closes the file.
    pub fn close(self) -> Result<Closed, Refused<Headed<'a>>>
        ensures answer { result ≡ closed_by self.entry (closing (stand self.entry)) }
        ensures exact { ClosesExactly self.entry.reader.bytes.now self.entry.rows result }
    {
        if self.rows < self.heading.carriers {
            return Err(Refused {
                loader: self,
                fault: Fault::bare(Refusal::RowsMissing),
            });
        }
        // A `match`: see docs/DECISIONS.md, "What the checker does not have".
        match self.reader.total(self.used) {
            Err(fault) => Err(Refused {
                loader: self,
                fault,
            }),
            Ok(()) => Ok(Closed {
                heading: self.heading,
            }),
        }
    }
}

impl Closed {
    /// The heading, for filling.
    pub fn heading(&self) -> Heading
        ensures { result ≡ self.now.heading }
    {
        let Closed { heading } = self;
        *heading
    }
}
