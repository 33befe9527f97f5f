//! Sheets that the tests share, and the steps of a bid on them.
use auction::{Award, Verdict};
use hall::Hall;
use refusals::Refusal;
use sources::{Entry, Heading, Sheet, Source};
use three_by_three::{ENTRIES, HEADING, STARTS};

// A sheet. One that cannot be filled stays empty, and a hall over it cannot be started.
fn sheet_of<'a>(heading: Heading, starts: &'a [usize], entries: &'a [Entry]) -> Sheet<'a> {
    let mut sheet = Sheet::new();
    let _ = sheet.fill(heading, starts, entries);
    sheet
}

// A hall over a sheet, never started.
pub(crate) fn hall_of<'a>(
    carriers: usize,
    jobs: usize,
    starts: &'a [usize],
    entries: &'a [Entry],
) -> Hall<Sheet<'a>> {
    let heading = Heading {
        carriers,
        jobs,
        ceiling: 100,
    };
    Hall::new(sheet_of(heading, starts, entries))
}

// Three carriers and three jobs.
pub(crate) fn table_sheet() -> Sheet<'static> {
    sheet_of(HEADING, &STARTS, &ENTRIES)
}

pub(crate) fn table_hall() -> Hall<Sheet<'static>> {
    Hall::new(table_sheet())
}

// A bid from its summons to its verdict, with one look.
pub(crate) fn bid<S: Source>(hall: &mut Hall<S>, carrier: usize) -> Result<Verdict, Refusal> {
    hall.summon(carrier)?;
    hall.look(carrier)?;
    hall.settle(carrier)
}

pub(crate) fn won(job: usize, price: u64, displaced: Option<usize>) -> Result<Verdict, Refusal> {
    Ok(Verdict::Awarded(Award {
        job,
        price,
        displaced,
    }))
}
