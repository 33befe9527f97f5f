//! Writes any source as a sheet file, without its zero entries.
ghost use Rattle.std.specs.Prelude.{◌≡◌, ◌^◌, ◌<◌, ◌≤◌, true, length};
ghost use Rattle.numbers.specs.Groups.{encoded};
ghost use Rattle.numbers.specs.Writing.{over};
ghost use Rattle.outputs.specs.Puts.{Puts};
ghost use Rattle.sheetfile.specs.Laws.{WritesLoadable};
ghost use Rattle.sheetfile.specs.Layout.{row_bytes};
ghost use Rattle.sheetfile.specs.Writing.{nonzero, nonzero_bytes, out_after, write_answer, written};
ghost use Rattle.sources.specs.Limits.{most_jobs, highest_ceiling};
ghost use Rattle.sources.specs.Meaning.{row_of};
ghost use Rattle.sources.specs.Sheets.{within_limits};
ghost use Rattle.sources.specs.Tables.{heading_of};

use numbers::{MOST_GROUPS, write_number};
use outputs::Output;
use refusals::Refusal;
use sources::{Source, entries, heading_of, within_limits};

// Puts a number. One of up to three groups, as most are, is put as an array of that length, with no loop and no copy of unknown length.
fn put_number(output: &mut Output<'_>, n: u64)
    requires { n < 2 ^ 42 }
    ensures { Puts output.old output.new (encoded n) }
{
    if n < 128 {
        return output.put(&[n as u8]);
    }
    let first = (128 + n % 128) as u8;
    let rest = n / 128;
    if rest < 128 {
        return output.put(&[first, rest as u8]);
    }
    if rest < 128 * 128 {
        return output.put(&[first, (128 + rest % 128) as u8, (rest / 128) as u8]);
    }
    let mut groups = [0; MOST_GROUPS];
    if let Ok(len) = write_number(&mut groups, 0, n) {
        output.put(&groups[..len]);
    }
}

// Puts an entry; one of worth 0 is passed over.
fn put_entry(output: &mut Output<'_>, job: usize, worth: u64)
    requires job { job < 2 ^ 42 }
    requires worth { worth < 2 ^ 42 }
    ensures { Puts output.old output.new (nonzero_bytes (job, worth)) }
{
    if worth > 0 {
        put_number(output, job as u64);
        put_number(output, worth);
    }
}

// How many entries of a row are worth something.
fn nonzero_count<S: Source>(source: &S, carrier: usize) -> usize
    ensures { result ≡ length (nonzero (row_of (S.Source.meaning source.now) carrier)) }
{
    entries(source, carrier)
        .filter(|(_, worth)| *worth > 0)
        .count()
}

// Puts a row: its count, and its entries that are worth something. It gives the count.
fn put_row<S: Source>(source: &S, carrier: usize, output: &mut Output<'_>) -> usize
    requires jobs { (S.Source.meaning source.now).jobs ≤ most_jobs }
    requires ceiling { (S.Source.meaning source.now).ceiling ≤ highest_ceiling }
    ensures count { result ≡ length (nonzero (row_of (S.Source.meaning source.now) carrier)) }
    ensures row { Puts output.old output.new (row_bytes (nonzero (row_of (S.Source.meaning source.now) carrier))) }
{
    let count = nonzero_count(source, carrier);
    put_number(output, count as u64);
    for (job, worth) in entries(source, carrier) {
        put_entry(output, job, worth);
    }
    count
}

// Puts a whole file: its heading, its rows and the total of their counts.
fn put_file<S: Source>(source: &S, output: &mut Output<'_>)
    requires { within_limits (heading_of (S.Source.meaning source.now)) ≡ true }
    ensures { Puts output.old output.new (written (S.Source.meaning source.now)) }
{
    let heading = heading_of(source);
    put_number(output, heading.carriers as u64);
    put_number(output, heading.jobs as u64);
    put_number(output, heading.ceiling);
    let mut total = 0;
    for i in 0..heading.carriers {
        total += put_row(source, i, output);
    }
    put_number(output, total as u64);
}

// Writes a whole file, if there is room for it, and gives its length. With no bytes to write to, it tells the length alone.
fn write_file<S: Source>(source: &S, out: &mut [u8]) -> usize
    requires { within_limits (heading_of (S.Source.meaning source.now)) ≡ true }
    ensures long { result ≡ length (written (S.Source.meaning source.now)) }
    ensures after { let file = written (S.Source.meaning source.now) in
        length file ≤ length out.old → out.new ≡ over out.old 0 file }
{
    let mut output = Output::new(out);
    put_file(source, &mut output);
    output.len()
}

/// Writes a source, without its zero entries, and gives the length of its file. Bytes behind it are not touched, and none
/// where it is refused.
pub fn write<S: Source>(source: &S, out: &mut [u8]) -> Result<usize, Refusal>
    ensures answer { result ≡ write_answer (S.Source.meaning source.now) (length out.old) }
    ensures after { out.new ≡ out_after result out.old (written (S.Source.meaning source.now)) }
    ensures loadable { WritesLoadable (S.Source.meaning source.now) result out.new }
{
    if !within_limits(heading_of(source)) {
        return Err(Refusal::CountsOutside);
    }
    let len = write_file(source, &mut []);
    if out.len() < len {
        return Err(Refusal::TooShort);
    }
    Ok(write_file(source, out))
}
