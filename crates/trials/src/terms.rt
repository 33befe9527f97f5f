//! What an auction is held on.
use grids::Grid;
use std::fmt;

// Which layers are above a sheet.
#[derive(Clone, Copy, Debug)]
pub(crate) enum Layers {
    None,
    Times,
    Floor,
    TimesOverFloor,
}

impl fmt::Display for Layers {
    fn fmt<W: fmt::Write>(&self, f: &mut fmt::Formatter<W>) -> fmt::Result {
        match self {
            Layers::None => write!(f, "without a layer"),
            Layers::Times => write!(f, "under times"),
            Layers::Floor => write!(f, "under floor"),
            Layers::TimesOverFloor => write!(f, "under times over floor"),
        }
    }
}

// The worths of the sheet, the worths above all layers, what the layers are, and the factor of the uppermost layer, or 0 if that is no
// times layer. `below` has the worths below the times layer, or above all layers without one.
#[derive(Clone, Copy)]
pub(crate) struct Terms {
    pub(crate) sheet: Grid,
    pub(crate) grid: Grid,
    pub(crate) below: Grid,
    pub(crate) layers: Layers,
    pub(crate) factor: u64,
}

impl Terms {
    // On a sheet with these worths.
    pub(crate) fn plain(sheet: Grid) -> Terms {
        Terms {
            sheet,
            grid: sheet,
            below: sheet,
            layers: Layers::None,
            factor: 0,
        }
    }

    // Under a floor layer more.
    pub(crate) fn floor(&self, floor: u64) -> Terms {
        let grid = self.grid.floor(floor);
        Terms {
            sheet: self.sheet,
            grid,
            below: grid,
            layers: Layers::Floor,
            factor: 0,
        }
    }

    // Under a times layer more.
    pub(crate) fn times(&self, factor: u32, layers: Layers) -> Terms {
        let factor = u64::from(factor);
        Terms {
            sheet: self.sheet,
            grid: self.grid.times(factor),
            below: self.grid,
            layers,
            factor,
        }
    }

    // Whether a carrier's row has an entry for the job. A layer leaves each entry there, also one whose worth becomes 0.
    pub(crate) fn has_entry(&self, carrier: usize, job: usize) -> bool {
        self.sheet.worth(carrier, job) > 0
    }

    // How many entries a carrier's row has.
    pub(crate) fn entries(&self, carrier: usize) -> usize {
        (0..self.sheet.jobs)
            .filter(|job| self.has_entry(carrier, *job))
            .count()
    }
}
