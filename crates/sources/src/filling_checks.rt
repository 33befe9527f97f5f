//! What filling a sheet checks.
ghost use Rattle.std.specs.Prelude.{◌≡◌, ℕ, ◌+◌, ◌<◌, ◌≤◌, true, length, slice_index};
ghost use Rattle.sources.specs.Limits.{most_carriers};
ghost use Rattle.sources.specs.Sheets.{within_limits, starts_good, starts_at, entry_refusal, fill_verdict};

use crate::records::{Entry, Heading};
use refusals::Refusal;

/// The most carriers that a sheet may have.
pub const MOST_CARRIERS: usize = 128;

/// The most jobs that a sheet may have.
pub const MOST_JOBS: usize = 256;

/// The highest ceiling that a sheet may have.
pub const HIGHEST_CEILING: u64 = 1 << 36;

/// Whether carriers are 1 to 128, jobs 1 to 256, and the ceiling is at most 2^36.
pub fn within_limits(heading: Heading) -> bool
    ensures { result ≡ within_limits heading }
{
    (1..=MOST_CARRIERS).contains(&heading.carriers)
        && (1..=MOST_JOBS).contains(&heading.jobs)
        && heading.ceiling <= HIGHEST_CEILING
}

// Whether row starts are carriers + 1 in number, begin with 0, never fall, and don't pass the entry table's end.
fn starts_good(heading: Heading, starts: &[usize], count: usize) -> bool
    requires { heading.carriers ≤ most_carriers }
    ensures { result ≡ starts_good heading starts.now count }
{
    if starts.len() != heading.carriers + 1 || starts[0] != 0 {
        return false;
    }
    starts.is_sorted() && starts[heading.carriers] <= count
}

// The place of the first row start, from a place on, that is not below k.
fn start_from(starts: &[usize], from: usize, k: usize) -> usize
    ensures passed { (j : ℕ) → from ≤ j → j < result → slice_index starts.now j < k }
    ensures reached { result < length starts.now → k ≤ slice_index starts.now result }
{
    let mut next = from;
    while next < starts.len() && starts[next] < k {
        next += 1;
    }
    next
}

// Whether a row starts at k, where `next` is the place of the first row start that is not below k.
fn starts_at(starts: &[usize], next: usize, k: usize) -> bool
    requires rises { (i : ℕ) → i + 1 < length starts.now → slice_index starts.now i ≤ slice_index starts.now (i + 1) }
    requires passed { (j : ℕ) → j < next → slice_index starts.now j < k }
    requires reached { next < length starts.now → k ≤ slice_index starts.now next }
    ensures { result ≡ starts_at starts.now k }
{
    next < starts.len() && starts[next] == k
}

// What the first bad entry is refused for.
fn entry_refusal(heading: Heading, starts: &[usize], entries: &[Entry]) -> Option<Refusal>
    requires begins { starts_at starts.now 0 ≡ true }
    requires rises { (i : ℕ) → i + 1 < length starts.now → slice_index starts.now i ≤ slice_index starts.now (i + 1) }
    ensures { result ≡ entry_refusal heading starts.now entries.now }
{
    // The least job that the next entry may have in the same row, and the place of the first start that is not yet passed: since starts
    // and places rise, both tables are gone through once.
    let mut least = 0;
    let mut next = 0;
    // By index: whether a row starts at an entry is asked of its place in the table.
    for (k, entry) in entries.iter().enumerate() {
        if entry.job < least {
            next = start_from(starts, next, k);
            if !starts_at(starts, next, k) {
                return Some(Refusal::JobOutOfOrder);
            }
        }
        if entry.job >= heading.jobs {
            return Some(Refusal::JobOutOfOrder);
        }
        if entry.worth == 0 || entry.worth > heading.ceiling {
            return Some(Refusal::WorthOutside);
        }
        least = entry.job + 1;
    }
    None
}

// What filling answers: the counts are checked, then the row starts, then every entry of every row in order.
pub(crate) fn fill_verdict(
    heading: Heading,
    starts: &[usize],
    entries: &[Entry],
) -> Result<(), Refusal>
    ensures { result ≡ fill_verdict heading starts.now entries.now }
{
    if !within_limits(heading) {
        return Err(Refusal::CountsOutside);
    }
    if !starts_good(heading, starts, entries.len()) {
        return Err(Refusal::StartsUnfit);
    }
    entry_refusal(heading, starts, &entries[0..starts[heading.carriers]]).map_or(Ok(()), Err)
}
