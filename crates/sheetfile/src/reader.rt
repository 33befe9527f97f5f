//! The parts of a file, each read where the one before it ended.
ghost use Rattle.std.specs.Prelude.{◌≡◌};
ghost use Rattle.numbers.specs.Reading.{read_at};
ghost use Rattle.sheetfile.specs.Reading.{bounded_by, closed_at, entry_from, heading_at, number_from, row_from, row_in};
ghost use Rattle.sheetfile.specs.Readers.{Reads, value_of};
ghost use Rattle.sheetfile.specs.Tables.{HoldsRow, row_count};

use numbers::read_number;
use refusals::{Fault, Refusal};
use sources::{Entry, HIGHEST_CEILING, Heading, MOST_CARRIERS, MOST_JOBS};
use std::ops::RangeBounds;

// Bytes, and the place in them where the next part begins, which refusals tell. A read that is refused leaves it where
// it was.
#[derive(Clone, Copy)]
pub(crate) struct Reader<'a> {
    bytes: &'a [u8],
    at: usize,
}

impl<'a> Reader<'a> {
    // A reader of all the bytes.
    pub(crate) fn new(bytes: &'a [u8]) -> Reader<'a>
        ensures bytes { result.bytes ≡ bytes.entry }
        ensures place { result.at ≡ 0 }
    {
        Reader { bytes, at: 0 }
    }

    fn number(&mut self) -> Result<u64, Fault>
        ensures { Reads self.old result self.new (read_at self.old.bytes.now self.old.at) }
    {
        let (number, next) = read_number(self.bytes, self.at)?;
        self.at = next;
        Ok(number)
    }

    // A number within a range. One outside of it is refused with a fault.
    fn number_in<R: RangeBounds<u64>>(&mut self, range: R, fault: Fault) -> Result<u64, Fault>
        requires { R.has_bounds range }
        ensures { let within = bounded_by (R.start_bound range) (R.end_bound range) in
            Reads self.old result self.new (number_from self.old.bytes.now within fault self.old.at) }
    {
        let mut ahead = *self;
        let number = ahead.number()?;
        if !range.contains(&number) {
            return Err(fault);
        }
        *self = ahead;
        Ok(number)
    }

    // The heading, for a table of so many starts.
    pub(crate) fn heading(&mut self, starts: usize) -> Result<Heading, Fault>
        ensures { Reads self.old result self.new (heading_at self.old.bytes.now starts self.old.at) }
    {
        let mut ahead = *self;
        let outside = Fault::bare(Refusal::CountsOutside);
        let heading = Heading {
            carriers: ahead.number_in(1..=MOST_CARRIERS as u64, outside)? as usize,
            jobs: ahead.number_in(1..=MOST_JOBS as u64, outside)? as usize,
            ceiling: ahead.number_in(..=HIGHEST_CEILING, outside)?,
        };
        if starts <= heading.carriers {
            return Err(Fault::bare(Refusal::TooShort));
        }
        *self = ahead;
        Ok(heading)
    }

    // An entry whose job is at least `low`.
    fn entry(&mut self, heading: Heading, low: usize) -> Result<(usize, u64), Fault>
        ensures { Reads self.old result self.new (entry_from self.old.bytes.now heading low self.old.at) }
    {
        let mut ahead = *self;
        let disordered = Fault::at(Refusal::JobOutOfOrder, ahead.at);
        let job = ahead.number_in(low as u64..heading.jobs as u64, disordered)?;
        let outside = Fault::at(Refusal::WorthOutside, ahead.at);
        let worth = ahead.number_in(1..=heading.ceiling, outside)?;
        *self = ahead;
        Ok((job as usize, worth))
    }

    // A row: how many entries it has. They go into the table, as far as that reaches.
    pub(crate) fn row(&mut self, heading: Heading, table: &mut [Entry]) -> Result<usize, Fault>
        ensures reads { Reads self.old result self.new (row_count (row_from self.old.bytes.now heading self.old.at)) }
        ensures held { HoldsRow (row_from self.old.bytes.now heading self.old.at) table.new }
    {
        let mut ahead = *self;
        let count = ahead.number()? as usize;
        let mut low = 0;
        for k in 0..count {
            let (job, worth) = ahead.entry(heading, low)?;
            // By index: after `get_mut` or a `next` of `iter_mut` a proof knows no entry of the table.
            if k < table.len() {
                table[k] = Entry { job, worth };
            }
            low = job + 1;
        }
        *self = ahead;
        Ok(count)
    }

    // How many entries the row that begins here announces.
    pub(crate) fn announced(&self) -> Result<usize, Fault>
        ensures { result ≡ value_of (read_at self.now.bytes.now self.now.at) }
    {
        let mut ahead = *self;
        let count = ahead.number()?;
        Ok(count as usize)
    }

    // The same, after so many entries and where there is room for so many in all.
    pub(crate) fn row_in(
        &mut self,
        heading: Heading,
        table: &mut [Entry],
        room: usize,
        used: usize,
    ) -> Result<usize, Fault>
        ensures reads { Reads self.old result self.new (row_count (row_in self.old.bytes.now heading room used self.old.at)) }
        ensures held { HoldsRow (row_from self.old.bytes.now heading self.old.at) table.new }
    {
        let mut ahead = *self;
        let count = ahead.row(heading, table)?;
        if room.saturating_sub(used) < count {
            return Err(Fault::bare(Refusal::TooShort));
        }
        *self = ahead;
        Ok(count)
    }

    // The closing total, with nothing after it.
    pub(crate) fn total(&self, used: usize) -> Result<(), Fault>
        ensures { result ≡ closed_at self.now.bytes.now used self.now.at }
    {
        let mut ahead = *self;
        let total = ahead.number()?;
        if total as usize != used {
            return Err(Fault::at(Refusal::TotalDiffers, self.at));
        }
        if ahead.at < self.bytes.len() {
            return Err(Fault::at(Refusal::BytesFollow, ahead.at));
        }
        Ok(())
    }
}
