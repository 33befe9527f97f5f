//! What a sheet is filled from, and what is stored of a row.

/// One entry of a row: a job, and what it is worth to the row's carrier.
#[derive(Clone, Copy, PartialEq, Eq, Debug)]
pub struct Entry {
    pub job: usize,
    pub worth: u64,
}

/// The numbers that a sheet begins with. Any three make a heading; filling checks them.
#[derive(Clone, Copy, PartialEq, Eq, Debug)]
pub struct Heading {
    pub carriers: usize,
    pub jobs: usize,
    pub ceiling: u64,
}

/// The entries of a table that are stored for a row, below all layers.
#[derive(Clone, Copy, PartialEq, Eq, Debug)]
pub struct StoredRow<'a> {
    /// One for each place of the row, in order.
    pub entries: &'a [Entry],
    /// Whether the quick way makes the same of them as the exact one: a product of `Times` is not capped then.
    pub quick: bool,
}
