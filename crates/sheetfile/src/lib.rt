//! The sheet file: read into lent tables, and written from any source.
#![tactic(auto)]

mod files;
mod loader;
mod owned;
mod reader;
mod rewriting;
mod writer;

pub use files::{MOST_BYTES, MOST_ENTRIES, MOST_STARTS, load, load_within, sheet_over};
pub use loader::{Bare, Closed, Headed, Refused};
pub use owned::OwnTables;
pub use rewriting::rewrite;
pub use writer::write;
