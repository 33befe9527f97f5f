//! The questions. They tell what the tally holds.
ghost use Rattle.std.specs.Prelude.{◌≡◌, ◌^◌, ◌<◌, Some, sum_by};
ghost use Rattle.sources.specs.Meaning.{Meaning};
ghost use Rattle.auction.specs.Standings.{worth_served};
ghost use Rattle.auction.specs.Tally.{total_worth};
ghost use Rattle.auction.specs.Calls.{price_answer, holder_answer, standing_answer};
ghost use Rattle.hall.specs.InBooks.{NotedOf, tally_in};

use super::Books;
use auction::{Counts, Standing};
use refusals::Refusal;

// What a served carrier's job is worth to it.
fn worth_served(standing: Standing) -> u64
    ensures { result ≡ worth_served standing }
{
    match standing {
        Standing::Served(held) => held.worth,
        _ => 0,
    }
}

// The sum of what the served carriers' jobs are worth.
fn total_worth(standings: &[Standing]) -> u64
    requires { sum_by worth_served standings.now < 2 ^ 64 }
    ensures { result ≡ sum_by worth_served standings.now }
{
    standings.iter().copied().map(worth_served).sum()
}

impl Books {
    pub(crate) fn price(&self, job: usize) -> Result<u64, Refusal>
        ensures { (m : Meaning) → NotedOf m self.now → result ≡ price_answer job m (Some (tally_in self.now)) }
    {
        if job >= self.noted.jobs {
            return Err(Refusal::NoSuchJob);
        }
        Ok(self.prices[job])
    }

    pub(crate) fn holder(&self, job: usize) -> Result<Option<usize>, Refusal>
        ensures { (m : Meaning) → NotedOf m self.now → result ≡ holder_answer job m (Some (tally_in self.now)) }
    {
        if job >= self.noted.jobs {
            return Err(Refusal::NoSuchJob);
        }
        Ok(self.holders[job])
    }

    pub(crate) fn standing(&self, carrier: usize) -> Result<Standing, Refusal>
        ensures { (m : Meaning) → NotedOf m self.now → result ≡ standing_answer carrier m (Some (tally_in self.now)) }
    {
        if carrier >= self.noted.carriers {
            return Err(Refusal::NoSuchCarrier);
        }
        Ok(self.standings[carrier])
    }

    pub(crate) fn worth(&self) -> u64
        ensures { result ≡ total_worth (tally_in self.now) }
    {
        total_worth(&self.standings[..self.noted.carriers])
    }

    pub(crate) fn counts(&self) -> Counts
        ensures { result ≡ (tally_in self.now).counts }
    {
        self.counts
    }
}
