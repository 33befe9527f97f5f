//! The listing of standings and counts, put piece by piece.
ghost use Rattle.std.specs.Prelude.{◌≡◌, ◌+◌, ◌*◌, ◌/◌, ◌≤◌, map, length, slice_index_or};
ghost use Rattle.numbers.specs.Writing.{over};
ghost use Rattle.auction.specs.Standings.{job_served};
ghost use Rattle.auction.specs.Laws.{worth};
ghost use Rattle.outputs.specs.Puts.{Puts};
ghost use Rattle.pairing.specs.Listing.{carrier_line, carrier_lines, last_line, listing as listing_of, outcome_text};
ghost use Rattle.pairing.specs.Held.{HeldUnderTimes, worth_told};
ghost use Rattle.pairing.specs.Pairs.{most_text};
ghost use Rattle.sources.specs.Limits.{most_carriers};

use crate::putting::put_decimal;
use auction::{Counts, Standing};
use outputs::Output;
use sources::Source;

// An auction that has ended: what every carrier has of a sheet, and the counts.
#[derive(Drop)]
pub(crate) struct Ended<'a, S: Source> {
    pub(crate) source: &'a S,
    pub(crate) standings: &'a [Standing],
    pub(crate) counts: Counts,
    ghost few: { length standings.now ≤ most_carriers },
    ghost timed: { HeldUnderTimes (S.Source.meaning source.now) standings.now },
}

impl<S: Source> Ended<'_, S> {
    // What a worth that the hall tells is on the sheet.
    fn on_sheet(&self, worth: u64) -> u64
        ensures { result ≡ worth / (length self.now.standings.now + 1) }
    {
        worth / (self.standings.len() as u64 + 1)
    }

    // Puts what a carrier has.
    fn put_standing(&self, carrier: usize, standing: Standing, output: &mut Output<'_>)
        requires { standing ≡ slice_index_or self.now.standings.now carrier Standing.Out }
        ensures puts { Puts output.old output.new (outcome_text (S.Source.meaning self.now.source.now) carrier standing) }
        ensures short { length (outcome_text (S.Source.meaning self.now.source.now) carrier standing) ≤ 41 }
    {
        match standing {
            Standing::Waiting | Standing::Bidding(_) => output.put(b"?"),
            Standing::Served(held) => {
                put_decimal(output, held.job);
                output.put(b" ");
                put_decimal(output, self.on_sheet(held.worth));
            }
            Standing::Out => output.put(b"-"),
        }
    }

    // Puts the line of a carrier.
    fn put_line(&self, carrier: usize, standing: Standing, output: &mut Output<'_>)
        requires { standing ≡ slice_index_or self.now.standings.now carrier Standing.Out }
        ensures puts { Puts output.old output.new (carrier_line (S.Source.meaning self.now.source.now) carrier standing) }
        ensures short { length (carrier_line (S.Source.meaning self.now.source.now) carrier standing) ≤ 63 }
    {
        put_decimal(output, carrier);
        output.put(b" ");
        self.put_standing(carrier, standing, output);
        output.put(b"\n");
    }

    // Puts the line of every carrier.
    fn put_lines(&self, output: &mut Output<'_>)
        ensures puts { Puts output.old output.new (carrier_lines (S.Source.meaning self.now.source.now) 0 self.now.standings.now) }
        ensures short { let standings = self.now.standings.now in
            length (carrier_lines (S.Source.meaning self.now.source.now) 0 standings) ≤ 64 * length standings }
    {
        for (carrier, standing) in self.standings.iter().enumerate() {
            self.put_line(carrier, *standing, output);
        }
    }

    // What a served carrier has is worth on the sheet; 0 where none is served.
    fn worth_told(&self, standing: Standing) -> u64
        ensures { result ≡ worth_told (length self.now.standings.now + 1) standing }
    {
        match standing {
            Standing::Served(held) => self.on_sheet(held.worth),
            _ => 0,
        }
    }

    // What the jobs that are held are worth in all.
    fn total_worth(&self) -> u128
        ensures { result ≡ worth (S.Source.meaning self.now.source.now) (map job_served self.now.standings.now) }
    {
        self.standings
            .iter()
            .map(|standing| u128::from(self.worth_told(*standing)))
            .sum()
    }

    // Puts the last line.
    fn put_last(&self, output: &mut Output<'_>)
        ensures puts { let total = worth (S.Source.meaning self.now.source.now) (map job_served self.now.standings.now) in
            Puts output.old output.new (last_line total self.now.counts) }
        ensures short { let total = worth (S.Source.meaning self.now.source.now) (map job_served self.now.standings.now) in
            length (last_line total self.now.counts) ≤ 101 }
    {
        output.put(b"worth ");
        put_decimal(output, self.total_worth());
        output.put(b" awards ");
        put_decimal(output, self.counts.awards);
        output.put(b" stale ");
        put_decimal(output, self.counts.stales);
        output.put(b"\n");
    }

    // Puts the whole listing, if there is room for it, and gives its length. With no bytes to put it to, it tells the length alone.
    pub(crate) fn put_listing(&self, out: &mut [u8]) -> usize
        ensures len { result ≡ length (listing_of (S.Source.meaning self.now.source.now) self.now.standings.now self.now.counts) }
        ensures written { result ≤ length out.old →
            out.new ≡ over out.old 0 (listing_of (S.Source.meaning self.now.source.now) self.now.standings.now self.now.counts) }
        ensures short { result ≤ most_text }
    {
        let mut output = Output::new(out);
        self.put_lines(&mut output);
        self.put_last(&mut output);
        output.len()
    }
}
