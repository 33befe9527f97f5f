//! Tests of sheet files on examples: read row by row, written, listed and replayed. The crates themselves are proved for all
//! input.
#![tactic(auto)]

#[cfg(test)]
mod listings;
#[cfg(test)]
mod loader;
#[cfg(test)]
mod logs;
#[cfg(test)]
mod writer;
