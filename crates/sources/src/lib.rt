//! Sources of worth: what each job is worth to each carrier, told as a row of entries by rising job.
#![tactic(auto)]

mod filling_checks;
mod layers;
mod lent;
mod nearness;
pub mod places;
mod questions;
mod records;
mod row_entries;
mod sheets;
mod showing;
mod visitors;

pub use filling_checks::{HIGHEST_CEILING, MOST_CARRIERS, MOST_JOBS, within_limits};
pub use layers::floor::Floor;
pub use layers::times::{HIGHEST_WORTH, Times};
pub use nearness::Positions;
pub use places::Place;
pub use questions::Source;
pub use records::{Entry, Heading, StoredRow};
pub use row_entries::{RowEntries, entries, entries_from, heading_of, row_length};
pub use sheets::Sheet;
pub use visitors::Visitor;
