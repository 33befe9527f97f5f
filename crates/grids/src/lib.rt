//! What the trials draw: numbers that look random, small random sheets, and the best pairing of each by trying all.
#![tactic(auto)]

pub mod draws;
pub mod groups;

ghost use Rattle.std.specs.Prelude.{◌≡◌, ℕ, ◌≤◌, ◌*◌, if◌then◌else◌, false, [], map, slice_index, slice_index_or};
ghost use Rattle.grids.specs.Drawn.{grid_drawn, row_drawn, worth_drawn};
ghost use Rattle.grids.specs.Worths.{IsBest, RowWithin, Within, capped, floored, pairing_worth, grid_worth};

use draws::Draw;

// How many pairings there are, with those that give a carrier a job that it may not take: five choices for each of four carriers.
const PAIRINGS: u32 = 625;

/// What each job is worth to each carrier, at most four of each; 0 where a carrier may not take a job. The three numbers are
/// no `Heading`: grids call no crate that the trials try. The worths are an array, since a grid is copied whole.
#[derive(Clone, Copy, PartialEq, Eq, Debug)]
pub struct Grid {
    pub carriers: usize,
    pub jobs: usize,
    pub ceiling: u64,
    pub worths: [[u64; 4]; 4],
}

impl Grid {
    /// A random grid with some entries left out, and with a ceiling of at most this, or of 1.
    pub fn draw(draw: &mut Draw, most: u64) -> Grid
        ensures drawn { (result, draw.new.state) ≡ grid_drawn most draw.old.state }
        ensures within { Within most result }
    {
        let carriers = 1 + draw.below(4) as usize;
        let jobs = 1 + draw.below(4) as usize;
        let ceiling = 1 + draw.below(most);
        let mut worths = [[0; 4]; 4];
        // By number: after `iter_mut().take(carriers)` a proof does not know what was written.
        for (carrier, row) in worths.iter_mut().enumerate() {
            *row = draw_row(draw, carrier < carriers, jobs, ceiling);
        }
        Grid {
            carriers,
            jobs,
            ceiling,
            worths,
        }
    }

    /// What a job is worth to a carrier; 0 where there is no such carrier or job.
    pub fn worth(&self, carrier: usize, job: usize) -> u64
        ensures { result ≡ grid_worth self.now.worths carrier job }
    {
        self.worths
            .get(carrier)
            .and_then(|row| row.get(job))
            .copied()
            .unwrap_or(0)
    }

    /// The grid with the ceiling and all worths times a factor; what is too large for 64 bits becomes the largest number there.
    pub fn times(&self, factor: u64) -> Grid
        ensures counts { (result.carriers ≡ self.now.carriers) × (result.jobs ≡ self.now.jobs) }
        ensures ceiling { result.ceiling ≡ capped (self.now.ceiling * factor) }
        ensures worths { (i : ℕ) →
            slice_index_or result.worths i [] ≡ map (λ w. capped (w * factor)) (slice_index_or self.now.worths i []) }
    {
        let mut worths = self.worths;
        for row in worths.iter_mut() {
            *row = times_row(*row, factor);
        }
        Grid {
            ceiling: self.ceiling.saturating_mul(factor),
            worths,
            ..*self
        }
    }

    /// The grid in which a worth below a floor is 0, with the ceiling as it was.
    pub fn floor(&self, floor: u64) -> Grid
        ensures counts { (result.carriers ≡ self.now.carriers) × (result.jobs ≡ self.now.jobs) }
        ensures ceiling { result.ceiling ≡ self.now.ceiling }
        ensures worths { (i : ℕ) → slice_index_or result.worths i [] ≡ map (floored floor) (slice_index_or self.now.worths i []) }
    {
        let mut worths = self.worths;
        for row in worths.iter_mut() {
            *row = floor_row(*row, floor);
        }
        Grid { worths, ..*self }
    }

    /// The grid in which only these carriers may take a job.
    pub fn only(&self, carriers: &[bool; 4]) -> Grid
        ensures counts { (result.carriers ≡ self.now.carriers) × (result.jobs ≡ self.now.jobs) }
        ensures ceiling { result.ceiling ≡ self.now.ceiling }
        ensures worths { (i j : ℕ) →
            grid_worth result.worths i j ≡ (if slice_index_or carriers.now i false then grid_worth self.now.worths i j else 0) }
    {
        let mut worths = self.worths;
        // By index: after a zip of `iter_mut` with the carriers a proof does not know what was written.
        for (carrier, row) in worths.iter_mut().enumerate() {
            if !carriers[carrier] {
                *row = [0; 4];
            }
        }
        Grid { worths, ..*self }
    }

    /// The most that any pairing is worth.
    pub fn best(&self) -> u64
        ensures { IsBest self.now.worths result }
    {
        // A loop: after `map(..).max()` over the numbers a proof does not know that some pairing has the largest worth.
        let mut most = 0;
        for number in 0..PAIRINGS {
            most = most.max(pairing_worth(&self.worths, number, [false; 4]).unwrap_or(0));
        }
        most
    }
}

// A random row: a worth for each job, or 0 for some; 0 for each where there is no such carrier.
fn draw_row(draw: &mut Draw, there: bool, jobs: usize, ceiling: u64) -> [u64; 4]
    requires { 1 ≤ ceiling }
    ensures value { result ≡ (row_drawn there jobs ceiling draw.old.state).0 }
    ensures state { draw.new.state ≡ (row_drawn there jobs ceiling draw.old.state).1 }
    ensures within { RowWithin jobs ceiling result }
    ensures empty { there ≡ false → (j : ℕ) → slice_index result j ≡ 0 }
{
    let mut row = [0; 4];
    if !there {
        return row;
    }
    // By number: after `iter_mut().take(jobs)` a proof does not know what was written.
    for (job, worth) in row.iter_mut().enumerate() {
        *worth = if job < jobs {
            draw_worth(draw, ceiling)
        } else {
            0
        };
    }
    row
}

// A random worth, or 0 for some.
fn draw_worth(draw: &mut Draw, ceiling: u64) -> u64
    requires { 1 ≤ ceiling }
    ensures value { result ≡ (worth_drawn ceiling draw.old.state).0 }
    ensures state { draw.new.state ≡ (worth_drawn ceiling draw.old.state).1 }
    ensures within { result ≤ ceiling }
{
    if draw.below(5) == 0 {
        return 0;
    }
    1 + draw.below(ceiling)
}

// A row whose worths are multiplied.
fn times_row(row: [u64; 4], factor: u64) -> [u64; 4]
    ensures { result ≡ map (λ w. capped (w * factor)) row }
{
    row.map(|worth| worth.saturating_mul(factor))
}

// A row whose worths below a floor become 0.
fn floor_row(row: [u64; 4], floor: u64) -> [u64; 4]
    ensures { result ≡ map (floored floor) row }
{
    row.map(|worth| if worth < floor { 0 } else { worth })
}

// What a pairing of these carriers is worth, if it gives each of them a job that it may take and that no other has. Its number in base
// five gives each carrier a job, or none at 4.
fn pairing_worth(rows: &[[u64; 4]], number: u32, mut taken: [bool; 4]) -> Option<u64>
    ensures { result ≡ pairing_worth rows.now number taken }
{
    let Some((row, others)) = rows.split_first() else {
        return Some(0);
    };
    let job = (number % 5) as usize;
    if job == 4 {
        return pairing_worth(others, number / 5, taken);
    }
    if row[job] == 0 || taken[job] {
        return None;
    }
    taken[job] = true;
    Some(pairing_worth(others, number / 5, taken)?.saturating_add(row[job]))
}

#[cfg(test)]
mod tests {
    use super::*;
    use crate::groups::push_number;
    use std::test::Fail;

    const TABLE: Grid = Grid {
        carriers: 3,
        jobs: 3,
        ceiling: 14,
        worths: [[5, 10, 1, 0], [4, 11, 3, 0], [5, 14, 8, 0], [0; 4]],
    };

    #[test]
    fn the_best_of_a_table(rt: HostRuntime) {
        assert_eq!(rt; TABLE.worth(1, 2), 3);
        assert_eq!(rt; TABLE.worth(4, 0), 0);
        assert_eq!(rt; TABLE.best(), 24);
        assert_eq!(rt; TABLE.times(2).best(), 48);
        assert_eq!(rt; TABLE.floor(8).best(), 19);
        assert_eq!(rt; TABLE.only(&[true, false, true, false]).best(), 19);
    }

    #[test]
    fn a_number_of_two_groups(rt: HostRuntime) -> Result<(), Fail> {
        let mut bytes = Vec::new(rt.alloc());
        push_number(&mut bytes, 5)?;
        push_number(&mut bytes, 300)?;
        assert_eq!(rt; bytes.as_slice(), [5, 172, 2].as_slice());
        Ok(())
    }
}
