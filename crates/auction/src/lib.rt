//! An auction of jobs among carriers: what a bid, a standing, a call and an answer are, and by which rules they change.
#![tactic(auto)]

mod bidding;
mod calls;
mod limits;

pub use bidding::{
    Act, Award, Best, Bid, Counts, Ending, Held, InFlight, Report, Standing, Verdict,
};
pub use calls::{Answer, Call};
pub use limits::{GREATEST_DEPTH, HIGHEST_STEP, MOST_LANES};
