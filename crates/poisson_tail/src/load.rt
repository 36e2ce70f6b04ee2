// The expected number of jumps.

ghost use Rattle.std.specs.Prelude.{◌≡◌, ◌+◌, ◌*◌, ◌^◌, ◌<◌, ◌≤◌};
ghost use Rattle.std.specs.Int.{div_ceil};
ghost use Rattle.ctmc_semantics.specs.Fraction.{fraction};
ghost use Rattle.ctmc_semantics.specs.Weights.{mode, fine_load};

use std::marker::Model;

/// The load of a bounded until, as a fraction: the number of jumps that the uniformised chain is
/// expected to make within the bound, which is its uniform rate times the time, or times the reward
/// where rewards are the clock. It is 0 where no state is left.
/// (Jensen 1953; Baier, Haverkort, Hermanns, Katoen 2003)
#[derive(Clone, Copy, Debug)]
pub struct Load {
    num: u128,
    den: u128,
}

impl Model for Load {
    ghost use Rattle.std.specs.Prelude.{◌^◌, ◌<◌};
    ghost use Rattle.ctmc_semantics.specs.Fraction.{Fraction, fraction};

    ghost Value = { Fraction };

    ghost view = { λ l. fraction l.num l.den };

    ghost invariant = { λ l. (l.num < 2 ^ 127) × (0 < l.den) × (l.den < 2 ^ 126) };

    ghost inverse = { λ f. record { num = f.num; den = f.den } };
}

impl Load {
    /// The load `num / den`, which need not be in lowest terms.
    pub fn new(num: u128, den: u128) -> Load
        requires num_fits { num < 2 ^ 127 }
        requires positive { 0 < den }
        requires den_fits { den < 2 ^ 126 }
        ensures { result ≡ fraction num den }
    {
        Load { num, den }
    }

    /// The most likely number of jumps: the load, rounded down.
    pub fn mode(&self) -> u128
        ensures value { result ≡ mode self.now }
        ensures divisor { 0 < self.now.den }
    {
        self.num / self.den
    }

    /// Twice the load, rounded up.
    pub(crate) fn doubled(&self) -> u128
        ensures value { result ≡ div_ceil (2 * self.now.num) self.now.den }
        ensures divisor { 0 < self.now.den }
    {
        (2 * self.num).div_ceil(self.den)
    }

    /// The load in units of 2^-50, rounded down: 0 for a load below 2^-50.
    pub fn fine_load(&self) -> u128
        requires { mode self.now < 2 ^ 77 }
        ensures value { result ≡ fine_load self.now }
        ensures at_least_mode { mode self.now * 2 ^ 50 ≤ result }
        ensures below_next { result < 2 ^ 50 * (mode self.now + 1) }
    {
        // The numerator times 2^50 need not fit: quotient and remainder are doubled together instead.
        let mut whole = self.num / self.den;
        let mut rest = self.num % self.den;
        for _ in 0u32..50 {
            whole *= 2;
            rest *= 2;
            if rest >= self.den {
                rest -= self.den;
                whole += 1;
            }
        }
        whole
    }
}
