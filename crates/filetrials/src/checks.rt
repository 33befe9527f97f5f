//! The checks of a file: it is loaded in all ways, and written again.
use crate::wrong::{Answer, Check, Wrong};
use refusals::{Fault, Refusal};
use sheetfile::{Bare, OwnTables, load, rewrite, sheet_over};
use sources::{Entry, Heading, MOST_CARRIERS, Sheet, Source, heading_of, row_length};

// What is lent to a load, and the buffer that is written to. The tables are short, so that some sheets do not fit; no file
// of these trials is longer than the buffer.
const STARTS: [usize; 6] = [7; 6];

const ENTRIES: [Entry; 20] = [Entry { job: 9, worth: 9 }; 20];

const OUT: [u8; 160] = [255; 160];

// Refuses with what is wrong, if a check does not hold.
fn hold(check: Check, holds: bool, expected: Answer, answered: Answer) -> Result<(), Wrong> {
    if holds {
        Ok(())
    } else {
        Err(Wrong {
            check,
            expected,
            answered,
        })
    }
}

// Loads a file state by state, and takes the sheet over the tables.
fn load_by_states(
    bytes: &[u8],
    starts: &mut [usize],
    entries: &mut [Entry],
) -> Result<Heading, Fault> {
    let mut loader = Bare::new(bytes).read_heading(starts)?;
    for _ in 0..=MOST_CARRIERS {
        match loader.read_row(starts, entries) {
            Ok(()) => {}
            Err(fault) if fault.refusal == Refusal::NoRowLeft => break,
            Err(fault) => return Err(fault),
        }
    }
    let heading = loader.close()?.heading();
    sheet_over(heading, starts, entries)?;
    Ok(heading)
}

// A file comes to the same as a whole and state by state: the same heading and tables, or the same refusal at the same
// place, which is also that of writing it again. Refused as a whole, it leaves the tables as they were.
fn check_states(bytes: &[u8], written: Answer) -> Result<(), Wrong> {
    let mut starts = STARTS;
    let mut entries = ENTRIES;
    let mut starts_by_states = STARTS;
    let mut entries_by_states = ENTRIES;
    let whole = load(bytes, &mut starts, &mut entries);
    let by_states = load_by_states(bytes, &mut starts_by_states, &mut entries_by_states);
    let expected = whole.map(|_| ());
    let answered = by_states.map(|_| ());
    hold(Check::States, whole == by_states, expected, answered)?;
    hold(Check::Rewrite, written == expected, expected, written)?;
    let (check, is_right) = match whole {
        Ok(_) => {
            let is_same = starts == starts_by_states && entries == entries_by_states;
            (Check::StatesTables, is_same)
        }
        Err(_) => (Check::RefusedLoad, starts == STARTS && entries == ENTRIES),
    };
    hold(check, is_right, expected, answered)
}

// Whether two sources tell the same row.
fn same_row<A: Source, B: Source>(first: &A, second: &B, carrier: usize) -> bool {
    (0..=row_length(first, carrier)).all(|place| first.entry(carrier, place)
        == second.entry(carrier, place))
}

// Whether two sources tell the same three numbers and rows.
fn same_sheet<A: Source, B: Source>(first: &A, second: &B) -> bool {
    heading_of(first) == heading_of(second)
        && (0..=first.carriers()).all(|carrier| same_row(first, second, carrier))
}

// A sheet of one carrier, which wants job 1.
const HELD: [u8; 7] = *b"\x01\x02\x05\x01\x01\x03\x01";

// A file comes to the same in tables of one's own that hold no sheet: the sheet over lent tables, or the same refusal, and
// then they hold no sheet.
fn check_owned(bytes: &[u8]) -> Result<(), Wrong> {
    let mut starts = [0; MOST_CARRIERS + 1];
    let mut entries = ENTRIES;
    let mut empty = OwnTables::<20>::new();
    let answered = empty.load(bytes);
    let lent = load(bytes, &mut starts, &mut entries);
    let expected = lent.map(|_| ());
    hold(Check::Owned, answered == expected, expected, answered)?;
    let is_same = match lent {
        Ok(heading) => match sheet_over(heading, &starts, &entries) {
            Ok(sheet) => same_sheet(&empty.sheet(), &sheet),
            Err(_) => false,
        },
        Err(_) => same_sheet(&empty.sheet(), &Sheet::new()),
    };
    hold(Check::OwnedSheet, is_same, expected, answered)
}

// A file comes to the same in tables of one's own that hold a sheet; where it is refused, they tell that sheet as before.
fn check_held(bytes: &[u8]) -> Result<(), Wrong> {
    let mut empty = OwnTables::<20>::new();
    let mut held = OwnTables::<20>::new();
    let is_begun = held.load(&HELD).is_ok();
    let expected = empty.load(bytes);
    let answered = held.load(bytes);
    let is_same = is_begun && answered == expected;
    hold(Check::Held, is_same, expected, answered)?;
    let mut before = OwnTables::<20>::new();
    let is_told = match answered {
        Ok(()) => same_sheet(&held.sheet(), &empty.sheet()),
        Err(_) => before.load(&HELD).is_ok() && same_sheet(&held.sheet(), &before.sheet()),
    };
    hold(Check::HeldSheet, is_told, expected, answered)
}

// Loads a file and writes it again to so many bytes of the buffer. Gives the answer, and whether the buffer then begins
// with the file and is as it was behind it; where it is refused, whether the tables and the buffer stayed as they were.
fn write_again(bytes: &[u8], room: usize) -> (Result<usize, Fault>, bool) {
    let mut starts = STARTS;
    let mut entries = ENTRIES;
    let mut out = OUT;
    let answer = rewrite(
        bytes,
        &mut starts,
        &mut entries,
        &mut out[..room.min(OUT.len())],
    );
    let right = match answer {
        Ok(len) => out.get(0..len) == Some(bytes) && out.get(len..) == OUT.get(len..),
        Err(_) => starts == STARTS && entries == ENTRIES && out == OUT,
    };
    (answer, right)
}

// An accepted file is written again as it was, and a refused one leaves tables and buffer as they were. Gives the answer.
fn check_written(bytes: &[u8]) -> Result<Answer, Wrong> {
    let (answer, is_right) = write_again(bytes, OUT.len());
    let answered = answer.map(|_| ());
    let check = if answer.is_ok() {
        Check::Written
    } else {
        Check::RefusedRewrite
    };
    hold(check, is_right, answered, answered)?;
    Ok(answered)
}

// An accepted file is refused with 12 by a buffer one byte shorter than it, and all that is lent stays as it was.
fn check_short(bytes: &[u8]) -> Result<(), Wrong> {
    let (answer, is_kept) = write_again(bytes, bytes.len().saturating_sub(1));
    let expected = Err(Fault::bare(Refusal::TooShort));
    let answered = answer.map(|_| ());
    let is_right = is_kept && answered == expected;
    hold(Check::Short, is_right, expected, answered)
}

// Checks a file. Gives whether it is accepted, or what is wrong.
pub(crate) fn check_file(bytes: &[u8]) -> Result<Answer, Wrong> {
    let answer = check_written(bytes)?;
    check_states(bytes, answer)?;
    check_owned(bytes)?;
    check_held(bytes)?;
    match answer {
        Ok(()) => check_short(bytes)?,
        Err(fault) => {
            let is_of_loads = fault.refusal.number() <= Refusal::TooShort.number();
            hold(Check::OfLoads, is_of_loads, answer, answer)?;
        }
    }
    Ok(answer)
}
