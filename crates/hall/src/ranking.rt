//! What entries that are looked at one by one come to: first among themselves, and then beside the bid so far (`look_closely`).
ghost use Rattle.std.specs.Prelude.{◌≡◌, ◌+◌, ◌^◌, ◌<◌, ◌≤◌, ◌⊎◌, negsuc, pos, ◌-ℤ◌, if◌then◌else◌, ◌==◌, ℕ, cond};
ghost use Rattle.sources.specs.Limits.{highest_worth};
ghost use Rattle.auction.specs.Bids.{natural, beats, weighed_at, best_worth};
ghost use Rattle.hall.specs.Seeing.{least, merged, bid_in};

use auction::{Best, Bid};

// 0 for a net below 0.
fn positive(net: i64) -> u64
    ensures { result ≡ natural net }
{
    net.max(0) as u64
}

// The larger net is better, and of equal nets the smaller job.
fn is_better(new: Best, old: Best) -> bool
    ensures { result ≡ beats new old }
{
    (new.net > old.net) | ((new.net == old.net) & (new.job < old.job))
}

// The best of some entries by rising job, and the highest net among the others, or 0. Worth 0 says that there was none, and no net is
// then below this one.
#[derive(Clone, Copy)]
pub(crate) struct Ranked {
    net: i64,
    job: usize,
    worth: u64,
    runner_up: i64,
    ghost none: { worth ≡ 0 → net ≡ least },
}

// The first of two if so, else the second.
pub(crate) fn either<T: Copy>(so: bool, first: T, second: T) -> T
    ensures { result ≡ cond so first second }
{
    if so { first } else { second }
}

// Worth minus price; an entry of worth 0 counts as none.
fn net_at(worth: u64, price: u64) -> i64
    requires low_worth { worth ≤ highest_worth }
    requires low_price { price ≤ highest_worth }
    ensures { result ≡ cond (worth == 0) least (pos worth -ℤ pos price) }
{
    if worth == 0 {
        i64::MIN
    } else {
        worth as i64 - price as i64
    }
}

impl Ranked {
    // Nothing was looked at.
    pub(crate) fn nothing() -> Self
        ensures net { result.net ≡ least }
        ensures job { result.job ≡ 0 }
        ensures worth { result.worth ≡ 0 }
        ensures runner_up { result.runner_up ≡ pos 0 }
    {
        Ranked {
            net: i64::MIN,
            job: 0,
            worth: 0,
            runner_up: 0,
        }
    }

    // One more entry, of a job above those before, at its job's price. Of equal nets the one before stays.
    pub(crate) fn and(self, job: usize, worth: u64, price: u64) -> Self
        requires low_worth { worth ≤ highest_worth }
        requires low_price { price ≤ highest_worth }
        requires rises { (self.worth ≡ 0) ⊎ (self.job < job) }
        ensures seen { (n : ℕ) → let before = bid_in n self.net self.job self.worth self.runner_up in
            bid_in (n + 1) result.net result.job result.worth result.runner_up ≡ weighed_at price before (job, worth) }
        ensures rises { (next : ℕ) → job < next → (result.worth ≡ 0) ⊎ (result.job < next) }
    {
        let net = net_at(worth, price);
        let is_best = net > self.net;
        Ranked {
            net: self.net.max(net),
            job: either(is_best, job, self.job),
            worth: either(is_best, worth, self.worth),
            runner_up: self.runner_up.max(self.net.min(net)),
        }
    }
}

// The bid after so many more entries, which came to this among themselves.
pub(crate) fn merged(bid: Bid, entries: usize, seen: Ranked) -> Bid
    requires { bid.looked + entries < 2 ^ 64 }
    ensures { result ≡ merged bid (bid_in entries seen.net seen.job seen.worth seen.runner_up) }
{
    let looked = bid.looked + entries;
    let runner_up = bid.runner_up.max(positive(seen.runner_up));
    if seen.worth == 0 {
        return Bid {
            looked,
            best: bid.best,
            runner_up,
        };
    }
    let new = Best {
        net: seen.net,
        job: seen.job,
        worth: seen.worth,
    };
    let Some(old) = bid.best else {
        return Bid {
            looked,
            best: Some(new),
            runner_up,
        };
    };
    let is_best = is_better(new, old);
    Bid {
        looked,
        best: Some(Best {
            net: old.net.max(new.net),
            job: either(is_best, new.job, old.job),
            worth: either(is_best, new.worth, old.worth),
        }),
        runner_up: runner_up.max(positive(old.net.min(new.net))),
    }
}

// The best job's worth.
pub(crate) fn best_worth(bid: Bid) -> u64
    ensures { result ≡ best_worth bid.best }
{
    bid.best.map_or(0, |best| best.worth)
}
