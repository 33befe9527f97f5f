//! The hall's books.
ghost use Rattle.hall.specs.BooksSound.{BooksSound};

use auction::{Counts, Standing};
use sources::{Heading, MOST_CARRIERS, MOST_JOBS};

pub(crate) mod calls;
mod glance;
mod questions;
mod queues;
mod runs;

/// The tally of a hall, in tables: of `prices` and `holders` the first `noted.jobs` places are used, of `standings` the first
/// `noted.carriers`. Prices have a table of their own, so that a look reads one in one instruction.
#[derive(Drop)]
pub struct Books {
    // What start noted of the source.
    noted: Heading,
    step: u64,
    lanes: usize,
    prices: [u64; MOST_JOBS],
    // The carrier that holds each job, if there is one.
    holders: [Option<usize>; MOST_JOBS],
    standings: [Standing; MOST_CARRIERS],
    counts: Counts,
    ghost sound: { ∥ BooksSound noted step lanes prices holders standings counts ∥₁ },
}
