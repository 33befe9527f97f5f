//! Numbers that look random, the same ones for each seed: Marsaglia's xorshift of 64 bits. For trials, not for secrets.
ghost use Rattle.std.specs.Prelude.{◌≡◌, ◌<◌, max};
ghost use Rattle.grids.specs.Xorshift.{drawn, next};

/// Numbers that look random, the same in every run from the same seed.
#[derive(Drop)]
pub struct Draw {
    state: u64,
}

impl Draw {
    /// The state of xorshift must not be 0, so seed 0 is taken as 1.
    pub fn new(seed: u64) -> Draw
        ensures { result.state ≡ max seed 1 }
    {
        Draw { state: seed.max(1) }
    }

    /// A number below a bound; 0 where the bound is 0.
    pub fn below(&mut self, bound: u64) -> u64
        ensures value { result ≡ drawn bound self.new.state }
        ensures state { self.new.state ≡ next self.old.state }
        ensures below { result < max bound 1 }
    {
        self.state = next_state(self.state);
        self.state % bound.max(1)
    }
}

// One step of xorshift.
#[tactic(auto, unfolding(crate::specs::Xorshift::next))]
fn next_state(state: u64) -> u64
    ensures { result ≡ next state }
{
    let mut x = state;
    x ^= x << 13;
    x ^= x >> 7;
    x ^ (x << 17)
}
