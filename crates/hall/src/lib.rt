//! The hall: an auction over any source of worth, call by call, and lists of calls.
#![tactic(auto)]

pub mod books;
mod call_lists;
mod halls;
mod ranking;

pub use call_lists::replay;
pub use halls::Hall;
