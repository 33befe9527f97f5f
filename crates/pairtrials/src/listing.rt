//! A listing, read back line by line, and held against the grid.
use grids::Grid;

// What a listing tells, if every line of it is right.
#[derive(Clone, Copy, Default)]
pub(crate) struct Listing {
    pub(crate) worth: u64,
    // How many carriers have `?`.
    pub(crate) open: u64,
    // Who has a job or `-`.
    pub(crate) done: [bool; 4],
}

// What a line tells of its carrier.
#[derive(Clone, Copy)]
enum Line {
    Served { job: u64, worth: u64 },
    Open,
    Out,
}

// A number in decimal digits, and nothing else.
fn number(field: &str) -> Option<u64> {
    field
        .bytes()
        .all(|byte| byte.is_ascii_digit())
        .then(|| field.parse().ok())
        .flatten()
}

// The line of a carrier, without its end.
fn read_line(line: &str, carrier: usize) -> Option<Line> {
    let (first, rest) = line.split_once(' ')?;
    if number(first)? != carrier as u64 {
        return None;
    }
    match rest {
        "?" => Some(Line::Open),
        "-" => Some(Line::Out),
        _ => {
            let (job, worth) = rest.split_once(' ')?;
            Some(Line::Served {
                job: number(job)?,
                worth: number(worth)?,
            })
        }
    }
}

// Takes a job that is not taken yet, and is worth what the line says.
fn take_job(grid: &Grid, carrier: usize, line: (u64, u64), taken: &mut [bool; 4]) -> Option<()> {
    let (job, worth) = line;
    let place = taken.get_mut(job as usize)?;
    if *place || worth == 0 || worth != grid.worth(carrier, job as usize) {
        return None;
    }
    *place = true;
    Some(())
}

// The worth that the last line tells, without its end.
fn read_last(line: &str) -> Option<u64> {
    let (worth, counts) = line.strip_prefix("worth ")?.split_once(' ')?;
    let (awards, stale) = counts.strip_prefix("awards ")?.split_once(' ')?;
    number(awards)?;
    number(stale.strip_prefix("stale ")?)?;
    number(worth)
}

// What a listing of the grid tells; none if a line is wrong or missing, or something follows.
pub(crate) fn read_listing(grid: &Grid, text: &str) -> Option<Listing> {
    let mut lines = text.strip_suffix('\n')?.split('\n');
    let mut told = Listing::default();
    let mut taken = [false; 4];
    for carrier in 0..grid.carriers {
        match read_line(lines.next()?, carrier)? {
            Line::Served { job, worth } => {
                take_job(grid, carrier, (job, worth), &mut taken)?;
                told.worth = told.worth.saturating_add(worth);
                *told.done.get_mut(carrier)? = true;
            }
            Line::Open => told.open = told.open.saturating_add(1),
            Line::Out => *told.done.get_mut(carrier)? = true,
        }
    }
    let last = read_last(lines.next()?)?;
    (last == told.worth && lines.next().is_none()).then_some(told)
}
