//! What the row of a carrier comes to, whatever the source: the worth of a job, the total, the best entry.
//! Proved from what every source promises alone.
#![tactic(auto)]

ghost use Rattle.std.specs.Prelude.{◌≡◌};
ghost use Rattle.sources.specs.Meaning.{row_of, worth_of};
ghost use Rattle.sources.specs.Layers.{floored, floor_of, scaled, times_of, FloorThenTimes};
ghost use Rattle.rows.specs.Totals.{row_total, BestIn};

use sources::{Floor, Source, Times, entries};

/// What a job is worth to a carrier; 0 if the carrier's row has no entry for it.
pub fn worth_of<S: Source>(source: &S, carrier: usize, job: usize) -> u64
    ensures { result ≡ worth_of (S.Source.meaning source.now) carrier job }
{
    entries(source, carrier)
        .find(|(found, _)| *found == job)
        .map_or(0, |(_, worth)| worth)
}

/// The sum of the worths of a carrier's row; `None` past the last carrier.
pub fn row_total<S: Source>(source: &S, carrier: usize) -> Option<u128>
    ensures { result ≡ row_total (S.Source.meaning source.now) carrier }
{
    source.row_len(carrier)?;
    let total = entries(source, carrier)
        .map(|(_, worth)| u128::from(worth))
        .sum();
    Some(total)
}

/// The entry of the greatest worth in a carrier's row, of equal worths the one with the smaller job;
/// `None` if nothing there is worth more than 0.
pub fn best_entry<S: Source>(source: &S, carrier: usize) -> Option<(usize, u64)>
    ensures { BestIn (row_of (S.Source.meaning source.now) carrier) result }
{
    let mut best: Option<(usize, u64)> = None;
    for (job, worth) in entries(source, carrier) {
        if worth > best.map_or(0, |(_, most)| most) {
            best = Some((job, worth));
        }
    }
    best
}

/// What a job is worth to a carrier through a floor layer with a times layer above it: through the floor first, and
/// then through the factor, as the whole pile means.
pub fn priced_worth<S: Source>(
    source: &S,
    floor: u64,
    factor: u32,
    carrier: usize,
    job: usize,
) -> u64
    ensures piled { result ≡ worth_of (times_of factor (floor_of floor (S.Source.meaning source.now))) carrier job }
    ensures worth { result ≡ scaled factor (floored floor (worth_of (S.Source.meaning source.now) carrier job)) }
    ensures meaning { let m = S.Source.meaning source.now in FloorThenTimes floor factor m (times_of factor (floor_of floor m)) }
{
    let floored = Floor {
        below: source,
        floor,
    };
    let priced = Times {
        below: floored,
        factor,
    };
    worth_of(&priced, carrier, job)
}

#[cfg(test)]
mod tests {
    use super::*;
    use refusals::Refusal;
    use sources::{Entry, Heading, Place, Positions, Sheet};
    use std::test::Fail;

    const HEADING: Heading = Heading {
        carriers: 2,
        jobs: 3,
        ceiling: 9,
    };

    const STARTS: [usize; 3] = [0, 2, 3];

    const ENTRIES: [Entry; 3] = [
        Entry { job: 0, worth: 5 },
        Entry { job: 2, worth: 9 },
        Entry { job: 1, worth: 4 },
    ];

    #[test]
    fn nearer_jobs_are_worth_more(rt: HostRuntime) {
        let carriers = [Place { aisle: 2, level: 1 }];
        let jobs = [Place { aisle: 3, level: 2 }, Place { aisle: 7, level: 1 }];
        let positions = Positions {
            carriers: &carriers,
            jobs: &jobs,
            reach: 20,
        };
        assert_eq!(rt; positions.entry(0, 0), Some((0, 9)));
        assert_eq!(rt; positions.entry(0, 1), Some((1, 0)));
        assert_eq!(rt; positions.entry(1, 0), None);
        assert_eq!(rt; best_entry(&positions, 0), Some((0, 9)));
    }

    // The first entry of a source of which nothing is known but that it answers the questions.
    fn first_entry(source: &dyn Source) -> Option<(usize, u64)> {
        source.entry(0, 0)
    }

    #[test]
    fn a_source_of_any_type_is_asked(rt: HostRuntime) -> Result<(), Fail> {
        let mut sheet = Sheet::new();
        sheet.fill(HEADING, &STARTS, &ENTRIES)?;
        assert_eq!(rt; first_entry(&sheet), Some((0, 5)));
        let places = [Place { aisle: 2, level: 1 }];
        let positions = Positions {
            carriers: &places,
            jobs: &places,
            reach: 20,
        };
        assert_eq!(rt; first_entry(&positions), Some((0, 20)));
        Ok(())
    }

    #[test]
    fn a_filled_sheet_is_read(rt: HostRuntime) -> Result<(), Fail> {
        let mut sheet = Sheet::new();
        assert_eq!(rt; sheet.carriers(), 0);
        sheet.fill(HEADING, &STARTS, &ENTRIES)?;
        assert_eq!(rt; row_total(&sheet, 0), Some(14));
        assert_eq!(rt; row_total(&sheet, 2), None);
        assert_eq!(rt; best_entry(&sheet, 1), Some((1, 4)));
        assert_eq!(rt; worth_of(&sheet, 1, 0), 0);
        Ok(())
    }

    #[test]
    fn the_first_refusal_is_told(rt: HostRuntime) {
        let wide = Heading {
            jobs: 257,
            ..HEADING
        };
        let zero = [Entry { job: 1, worth: 0 }, Entry { job: 1, worth: 10 }];
        let twice = [Entry { job: 1, worth: 5 }, Entry { job: 1, worth: 10 }];
        let mut sheet = Sheet::new();
        assert_eq!(rt; sheet.fill(wide, &[1], &zero), Err(Refusal::CountsOutside));
        assert_eq!(rt;
            sheet.fill(HEADING, &[0, 3, 3], &zero),
            Err(Refusal::StartsUnfit)
        );
        assert_eq!(rt;
            sheet.fill(HEADING, &[0, 2, 2], &zero),
            Err(Refusal::WorthOutside)
        );
        assert_eq!(rt;
            sheet.fill(HEADING, &[0, 2, 2], &twice),
            Err(Refusal::JobOutOfOrder)
        );
        assert_eq!(rt;
            sheet.fill(HEADING, &[0, 1, 2], &twice),
            Err(Refusal::WorthOutside)
        );
        assert_eq!(rt; sheet.carriers(), 0);
        assert_eq!(rt; sheet.fill(HEADING, &[0, 1, 1], &twice), Ok(()));
        assert_eq!(rt; row_total(&sheet, 1), Some(0));
    }

    #[test]
    fn layers_are_piled(rt: HostRuntime) -> Result<(), Fail> {
        let mut sheet = Sheet::new();
        sheet.fill(HEADING, &STARTS, &ENTRIES)?;
        assert_eq!(rt; priced_worth(&sheet, 6, 3, 0, 2), 27);
        assert_eq!(rt; priced_worth(&sheet, 6, 3, 0, 0), 0);
        let tripled = Times {
            below: sheet,
            factor: 3,
        };
        let piled = Floor {
            below: tripled,
            floor: 16,
        };
        assert_eq!(rt; piled.ceiling(), 27);
        assert_eq!(rt; row_total(&piled, 0), Some(27));
        Ok(())
    }
}
