//! The auction of three carriers and three jobs that is shown call by call: rows 5 10 1, 4 11 3 and 5 14 8.
#![tactic(auto)]

use sources::{Entry, Heading};

/// Its heading.
pub const HEADING: Heading = Heading {
    carriers: 3,
    jobs: 3,
    ceiling: 14,
};

/// Where its rows start, and where the last one ends.
pub const STARTS: [usize; 4] = [0, 3, 6, 9];

/// The entries of its rows.
pub const ENTRIES: [Entry; 9] = [
    Entry { job: 0, worth: 5 },
    Entry { job: 1, worth: 10 },
    Entry { job: 2, worth: 1 },
    Entry { job: 0, worth: 4 },
    Entry { job: 1, worth: 11 },
    Entry { job: 2, worth: 3 },
    Entry { job: 0, worth: 5 },
    Entry { job: 1, worth: 14 },
    Entry { job: 2, worth: 8 },
];

/// Its sheet file.
pub const FILE: [u8; 25] =
    *b"\x03\x03\x0e\x03\x00\x05\x01\x0a\x02\x01\x03\x00\x04\x01\x0b\x02\x03\x03\x00\x05\x01\x0e\x02\x08\x09";
