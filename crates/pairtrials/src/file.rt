//! The sheet file of a grid, by code of its own, so that what is tried is not called by its trial.
use grids::Grid;
use grids::groups::push_number;
use std::alloc::{AllocError, Global};

// Appends a row: how many jobs the carrier may take, and each of them with its worth. Gives that count.
fn push_row(file: &mut Vec<u8>, row: &[u64; 4]) -> Result<u64, AllocError> {
    let count = row.iter().filter(|worth| **worth > 0).count() as u64;
    push_number(file, count)?;
    for (job, worth) in row.iter().enumerate() {
        if *worth > 0 {
            push_number(file, job as u64)?;
            push_number(file, *worth)?;
        }
    }
    Ok(count)
}

// The bytes of a grid's file.
pub(crate) fn file_of(heap: Global, grid: &Grid) -> Result<Vec<u8>, AllocError> {
    let mut file = Vec::new(heap);
    push_number(&mut file, grid.carriers as u64)?;
    push_number(&mut file, grid.jobs as u64)?;
    push_number(&mut file, grid.ceiling)?;
    let mut total = 0u64;
    for row in grid.worths.iter().take(grid.carriers) {
        total = total.saturating_add(push_row(&mut file, row)?);
    }
    push_number(&mut file, total)?;
    Ok(file)
}
