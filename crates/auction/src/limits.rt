//! The limits of an auction.

/// The highest step that a start may take; the lowest is 1.
pub const HIGHEST_STEP: u64 = 1 << 36;

/// The most lanes that a start may take; the fewest are 1.
pub const MOST_LANES: usize = 32;

/// The greatest depth that a run may take; the least is 1.
pub const GREATEST_DEPTH: usize = 128;
