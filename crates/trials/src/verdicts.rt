//! How an open bid has to end.
use crate::bids::{best_of, bid_of, natural, nets_at, runner_up_of, signed};
use crate::laws::{Checks, Law};
use crate::state::State;
use crate::terms::Terms;
use auction::{Award, Best, Bid, Verdict};

// A carrier's open bid, in the state just before it is settled.
#[derive(Clone, Copy)]
pub(crate) struct OpenBid<'a> {
    pub(crate) terms: &'a Terms,
    pub(crate) state: &'a State,
    pub(crate) carrier: usize,
}

// What is bid: the price seen and the best net, less the runner-up, and the step.
fn offer_of(step: u64, seen: u64, best: Best, runner_up: u64) -> i64 {
    signed(seen)
        .saturating_add(best.net)
        .saturating_sub(signed(runner_up))
        .saturating_add(signed(step))
}

impl OpenBid<'_> {
    // The most that may be bid beside another job that was seen: what would be bid if that job's net at the prices now were the
    // runner-up.
    fn most_beside(&self, job: usize, best: Best) -> i64 {
        let worth = signed(self.terms.grid.worth(self.carrier, job));
        let net_now = worth.saturating_sub(signed(self.state.told.price(job)));
        signed(best.worth)
            .saturating_sub(net_now.max(0))
            .saturating_add(signed(self.state.step))
    }

    // No more is bid than beside any other job that was seen.
    fn check_conservative(&self, checks: &mut Checks, best: Best, offer: i64) -> Result<(), Law> {
        for (job, seen) in self.state.seen(self.carrier).iter().enumerate() {
            let Some(seen) = *seen else {
                continue;
            };
            let law = if seen < self.state.told.price(job) {
                Law::ConservativeAfterRise
            } else {
                Law::Conservative
            };
            if job != best.job {
                checks.hold(law, offer <= self.most_beside(job, best))?;
            }
        }
        Ok(())
    }

    // How a bid has to end whose best net is above 0. Its best job was seen at a price.
    fn check_gain(
        &self,
        checks: &mut Checks,
        bid: Bid,
        best: Best,
        verdict: Verdict,
    ) -> Result<(), Law> {
        let prices = self.state.seen(self.carrier);
        let seen = prices.get(best.job).copied().flatten().unwrap_or(0);
        let offer = offer_of(self.state.step, seen, best, bid.runner_up);
        self.check_conservative(checks, best, offer)?;
        let price = self.state.told.price(best.job);
        let award = Award {
            job: best.job,
            price: natural(offer),
            displaced: self.state.told.holder(best.job),
        };
        match verdict {
            Verdict::Out => checks.hold(Law::Out, false),
            Verdict::Stale => {
                checks.hold(Law::Stale, offer <= signed(price))?;
                checks.hold(Law::StaleWhy, seen < price)
            }
            Verdict::Awarded(made) => checks.hold(Law::Award, made == award && price < made.price),
        }
    }

    // How a carrier is settled that looks at its whole row at once, at the prices now.
    fn sequential(&self) -> Verdict {
        let told = &self.state.told;
        let nets = nets_at(self.terms, self.carrier, &told.prices.map(Some));
        let Some(best) = best_of(&nets).filter(|best| best.net > 0) else {
            return Verdict::Out;
        };
        let raise = natural(best.net).saturating_sub(runner_up_of(&nets, best));
        Verdict::Awarded(Award {
            job: best.job,
            price: told
                .price(best.job)
                .saturating_add(raise)
                .saturating_add(self.state.step),
            displaced: told.holder(best.job),
        })
    }

    // It is settled by the sequential rule.
    pub(crate) fn check_sequential(
        &self,
        checks: &mut Checks,
        verdict: Verdict,
    ) -> Result<(), Law> {
        let rule = self.sequential();
        let law = if rule == Verdict::Out {
            Law::SequentialOut
        } else {
            Law::SequentialAward
        };
        checks.hold(law, verdict == rule)
    }

    // Whether it may end in this verdict: by the sequential rule if no award came since the carrier had no open bid.
    pub(crate) fn check_verdict(&self, checks: &mut Checks, verdict: Verdict) -> Result<(), Law> {
        let bid = bid_of(self.terms, self.carrier, &self.state.seen(self.carrier));
        match bid.best.filter(|best| best.net > 0) {
            Some(best) => self.check_gain(checks, bid, best, verdict)?,
            None => checks.hold(Law::Out, verdict == Verdict::Out)?,
        }
        if self.state.is_calm(self.carrier) {
            self.check_sequential(checks, verdict)?;
        }
        Ok(())
    }
}
