//! Pairs the carriers and jobs of a sheet file.
#![tactic(auto)]

ghost use Rattle.std.specs.Prelude.{◌≡◌, ℕ, ◌*◌, ◌≤◌, ◌⊎◌, List, length, Ok};
ghost use Rattle.std.specs.Result.{result_err};
ghost use Rattle.numbers.specs.Writing.{over};
ghost use Rattle.outputs.specs.Puts.{Puts};
ghost use Rattle.pairing.specs.Listing.{refused_line};
ghost use Rattle.pairing.specs.Pairs.{AtMost, ListsFile, fitted, listed, listed_within, printed, put_into, sized, listed_of, most_text};
ghost use Rattle.sheetfile.specs.Limits.{most_entries};
ghost use Rattle.sources.specs.Limits.{most_carriers};

use crate::auctioning::hold_auction;
use crate::listing::Ended;
use crate::loading::load_own;
use crate::putting::put_decimal;
use auction::Standing;
use outputs::Output;
use refusals::Refusal;
use sheetfile::{MOST_ENTRIES, OwnTables};
use sources::{MOST_CARRIERS, Source};

mod auctioning;
mod listing;
mod loading;
mod putting;

/// The most bytes that are printed: 64 for each of 128 carriers, and 128.
pub const MOST_TEXT: usize = 8320;

/// Pairs the carriers and jobs of a sheet file, and writes the listing. It gives the listing's length.
/// Refused: what the load refuses; 4 if the ceiling, times (carriers + 1), is above 2^36; and last of all 12 if the listing does not fit.
/// Bytes behind the listing are not touched, and none where it is refused.
#[tactic(auto, using(crate::proofs::Auctions::lists_file))]
pub fn list_pairs(sheet: &[u8], out: &mut [u8]) -> Result<usize, Refusal>
    ensures answer { result ≡ sized (listed_within sheet.now (length out.old)) }
    ensures after { out.new ≡ put_into out.old (listed_within sheet.now (length out.old)) }
    ensures paired { (text : List ℕ) → listed sheet.now ≡ Ok text → ListsFile sheet.now text }
    ensures short { AtMost most_text (listed sheet.now) }
{
    // A smaller table where it suffices, since it takes longer to fill a large one with zeros than to pair a small sheet.
    match sheet.len() {
        ..=256 => list_in::<128>(sheet, out),
        ..=1024 => list_in::<512>(sheet, out),
        ..=2048 => list_in::<1024>(sheet, out),
        _ => list_in::<MOST_ENTRIES>(sheet, out),
    }
}

// The same with a table of so many entries. A file has at most one for each two of its bytes.
fn list_in<const ENTRIES: usize>(sheet: &[u8], out: &mut [u8]) -> Result<usize, Refusal>
    requires room { ENTRIES ≡ most_entries ⊎ (length sheet.now ≤ 2 * ENTRIES) × (ENTRIES ≤ most_entries) }
    ensures answer { result ≡ sized (listed_within sheet.now (length out.old)) }
    ensures after { out.new ≡ put_into out.old (listed_within sheet.now (length out.old)) }
    ensures short { AtMost most_text (listed sheet.now) }
{
    let mut tables = OwnTables::<ENTRIES>::new();
    load_own(sheet, &mut tables).map_err(|fault| fault.refusal)?;
    list_source(&tables.sheet(), out)
}

// The same of a sheet that is loaded.
fn list_source<S: Source>(source: &S, out: &mut [u8]) -> Result<usize, Refusal>
    requires { (S.Source.meaning source.now).carriers ≤ most_carriers }
    ensures answer { result ≡ sized (fitted (length out.old) (listed_of (S.Source.meaning source.now))) }
    ensures after { out.new ≡ put_into out.old (fitted (length out.old) (listed_of (S.Source.meaning source.now))) }
    ensures short { AtMost most_text (listed_of (S.Source.meaning source.now)) }
{
    let mut places = [Standing::Waiting; MOST_CARRIERS];
    let standings = &mut places[..source.carriers()];
    let counts = hold_auction(source, standings)?;
    let ended = Ended {
        source,
        standings,
        counts,
    };
    // No listing is longer than the most text: only for a shorter buffer is it asked first how long it is.
    if out.len() < MOST_TEXT && out.len() < ended.put_listing(&mut []) {
        return Err(Refusal::TooShort);
    }
    Ok(ended.put_listing(out))
}

/// What `pair` prints of a sheet file: how many bytes, and the refusal, if it is refused.
/// A refusal has a text too. The text goes to a lent buffer and is not kept here.
#[derive(Drop)]
pub struct PrintedPairs {
    pub len: usize,
    pub refusal: Option<Refusal>,
}

/// Pairs the carriers and jobs of a sheet file, and writes the listing, or one line that tells the refusal.
/// Bytes behind the text are not touched.
pub fn print_pairs(sheet: &[u8], text: &mut [u8; MOST_TEXT]) -> PrintedPairs
    ensures len { result.len ≡ length (printed (listed sheet.now)) }
    ensures text { text.new ≡ over text.old 0 (printed (listed sheet.now)) }
    ensures refusal { result.refusal ≡ result_err (listed sheet.now) }
    ensures paired { (text : List ℕ) → listed sheet.now ≡ Ok text → ListsFile sheet.now text }
{
    match list_pairs(sheet, text) {
        Ok(len) => PrintedPairs { len, refusal: None },
        Err(refusal) => PrintedPairs {
            len: put_refused(refusal, text),
            refusal: Some(refusal),
        },
    }
}

// Writes the line of a refusal to the beginning of a buffer, and gives its length.
#[tactic(auto, using(crate::proofs::Texts::puts_over))]
fn put_refused(refusal: Refusal, out: &mut [u8]) -> usize
    requires { 64 ≤ length out.old }
    ensures len { result ≡ length (refused_line refusal) }
    ensures after { out.new ≡ over out.old 0 (refused_line refusal) }
{
    let mut output = Output::new(out);
    put_refused_line(refusal, &mut output);
    output.len()
}

// Puts the line of a refusal.
fn put_refused_line(refusal: Refusal, output: &mut Output<'_>)
    ensures puts { Puts output.old output.new (refused_line refusal) }
    ensures short { length (refused_line refusal) ≤ 12 }
{
    output.put(b"refused ");
    put_decimal(output, refusal.number());
    output.put(b"\n");
}
