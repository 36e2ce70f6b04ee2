// Fractions in lowest terms.
ghost use Rattle.std.specs.Prelude.{◌≡◌, ◌*◌, ◌^◌, ◌<◌, ◌≤◌, MatchOption, true, false};
ghost use Rattle.ctmc_semantics.specs.Fraction.{fraction, ◌≈◌};
ghost use Rattle.reward_dual.specs.LowestTerms.{fits_load, gcd, lowest_terms};

use poisson_tail::Load;
use std::marker::Model;

// A fraction whose numbers have nothing in common.
#[derive(Clone, Copy, Debug)]
struct Lowest {
    num: u128,
    den: u128,
}

impl Model for Lowest {
    ghost use Rattle.std.specs.Prelude.{◌<◌};
    ghost use Rattle.ctmc_semantics.specs.Fraction.{Fraction, fraction};
    ghost use Rattle.reward_dual.specs.Coprime.{AreCoprime};

    ghost Value = { Fraction };

    ghost view = { λ l. fraction l.num l.den };

    ghost invariant = { λ l. (0 < l.den) × (AreCoprime l.num l.den) };

    ghost inverse = { λ f. record { num = f.num; den = f.den } };
}

impl Lowest {
    fn of(num: u128, den: u128) -> Lowest
        requires { 0 < den }
        ensures { result ≡ lowest_terms (fraction num den) }
    {
        let common = gcd(num, den);
        Lowest {
            num: num / common,
            den: den / common,
        }
    }

    // 10^decimals / 10^places.
    fn of_powers(decimals: u32, places: u32) -> Lowest
        requires decimals { decimals ≤ 18 }
        requires places { places ≤ 36 }
        ensures value { result ≈ fraction (10 ^ decimals) (10 ^ places) }
        ensures divisor { 0 < result.den }
    {
        if places <= decimals {
            Lowest {
                num: 10u128.pow(decimals - places),
                den: 1,
            }
        } else {
            Lowest {
                num: 1,
                den: 10u128.pow(places - decimals),
            }
        }
    }

    // The product. What a numerator and the other's divisor have in common is left out before
    // multiplying, so that a number overflows only where it does so in lowest terms.
    fn times(self, other: Lowest) -> Option<Lowest>
        ensures { let product = lowest_terms (fraction (self.num * other.num) (self.den * other.den)) in
            MatchOption result (fits_load product ≡ false) (λ l. l ≡ product) }
    {
        let here = gcd(self.num, other.den);
        let there = gcd(other.num, self.den);
        let num = (self.num / here).checked_mul(other.num / there)?;
        let den = (self.den / there).checked_mul(other.den / here)?;
        Some(Lowest { num, den })
    }

    // The same number as a load, if its numbers fit.
    fn load(self) -> Option<Load>
        ensures { MatchOption result (fits_load self ≡ false) (λ l. (l ≡ self) × (fits_load self ≡ true)) }
    {
        if self.num < 1 << 127 && self.den < 1 << 126 {
            Some(Load::new(self.num, self.den))
        } else {
            None
        }
    }
}

// Euclid's algorithm (Elements, book VII).
fn gcd(a: u128, b: u128) -> u128
    ensures value { result ≡ gcd a b }
    ensures positive { 0 < b → 0 < result }
{
    let mut x = a;
    let mut y = b;
    while y != 0 {
        let rest = x % y;
        x = y;
        y = rest;
    }
    x
}

/// The load `exit * c * 10^decimals / (10^places * reward)` in lowest terms; `None` exactly where its
/// numbers don't fit a load. The product itself need not fit any integer.
pub(crate) fn lowest_load(
    exit: u64,
    reward: u64,
    c: u64,
    decimals: u32,
    places: u32,
) -> Option<Load>
    requires positive { 0 < reward }
    requires exit_fits { exit < 2 ^ 63 }
    requires reward_fits { reward < 2 ^ 63 }
    requires digits { c ≤ 10 ^ 18 }
    requires decimals { decimals ≤ 18 }
    requires places { places ≤ 36 }
    ensures { let load = lowest_terms (fraction (exit * c * 10 ^ decimals) (10 ^ places * reward)) in
        MatchOption result (fits_load load ≡ false) (λ l. (l ≡ load) × (fits_load load ≡ true)) }
{
    let whole = Lowest::of(u128::from(exit) * u128::from(c), u128::from(reward));
    whole.times(Lowest::of_powers(decimals, places))?.load()
}
