//! A look at a part of a row, in few steps for each entry.
ghost use Rattle.std.specs.Prelude.{◌≡◌, ◌+◌, ◌^◌, ◌<◌, ◌≤◌, ◌≤ℤ◌, pos, nat_lt, int_lt};
ghost use Rattle.sources.specs.Limits.{most_jobs, highest_worth};
ghost use Rattle.auction.specs.Bids.{natural};
ghost use Rattle.hall.specs.Glances.{top_net};

use crate::ranking::either;
use auction::{Best, Bid};
use sources::{MOST_JOBS, Visitor};

// What a bid comes to by the entries so far: the best net, the job of the entry that has it, and the runner-up. It begins with the
// bid's own, with a net of 0 where the bid has none above 0, and the job is `MOST_JOBS` until an entry's net is above that. An entry of worth 0 has no net
// above 0, so that none needs a test.
#[derive(Clone, Copy)]
pub(super) struct Glance<'a> {
    prices: &'a [u64; MOST_JOBS],
    net: i64,
    job: usize,
    runner_up: i64,
}

impl<'a> Glance<'a> {
    ghost use Rattle.hall.specs.Glances.{price_held};

    // What it is before the first entry.
    pub(super) fn new(prices: &'a [u64; MOST_JOBS], bid: Bid) -> Self
        requires low { bid.runner_up ≤ highest_worth }
        ensures prices { result.prices.now ≡ prices.now }
        ensures net { result.net ≡ pos (top_net bid.best) }
        ensures job { result.job ≡ most_jobs }
        ensures runner_up { result.runner_up ≡ pos bid.runner_up }
    {
        Glance {
            prices,
            net: top_net(bid.best),
            job: MOST_JOBS,
            runner_up: bid.runner_up as i64,
        }
    }

    // Whether an entry has a net above 0 and above the bid's.
    pub(super) fn found(&self) -> bool
        ensures { result ≡ nat_lt self.now.job most_jobs }
    {
        self.job < MOST_JOBS
    }

    // That entry: its worth is its net and its price.
    pub(super) fn best(&self) -> Best
        requires some { 0 < natural self.now.net }
        requires low { natural self.now.net + price_held self.now.prices.now self.now.job ≤ highest_worth }
        ensures net { result.net ≡ self.now.net }
        ensures job { result.job ≡ self.now.job }
        ensures worth { result.worth ≡ natural self.now.net + price_held self.now.prices.now self.now.job }
    {
        Best {
            net: self.net,
            job: self.job,
            worth: self.net as u64 + self.prices[self.job % MOST_JOBS],
        }
    }

    // Whether the best net is above all others.
    pub(super) fn leads(&self) -> bool
        ensures { result ≡ int_lt self.now.runner_up self.now.net }
    {
        self.runner_up < self.net
    }

    // The runner-up, which is 0 at least.
    pub(super) fn runner_up(&self) -> u64
        requires { pos 0 ≤ℤ self.now.runner_up }
        ensures { result ≡ natural self.now.runner_up }
    {
        self.runner_up as u64
    }
}

// The best net, 0 if there is none above it.
fn top_net(best: Option<Best>) -> i64
    ensures { result ≡ pos (top_net best) }
{
    match best {
        Some(best) => best.net.max(0),
        None => 0,
    }
}

impl Visitor for Glance<'_> {
    ghost use Rattle.hall.specs.Glances.{glanced};

    ghost shown = { glanced };

    #[inline(always)]
    fn see(self, entry: (usize, u64)) -> Self {
        let (job, worth) = entry;
        let job = job % MOST_JOBS;
        let net = worth.wrapping_sub(self.prices[job]).cast_signed();
        let is_best = net > self.net;
        Glance {
            prices: self.prices,
            net: either(is_best, net, self.net),
            job: either(is_best, job, self.job),
            runner_up: self.runner_up.max(either(is_best, self.net, net)),
        }
    }
}
