ghost use Rattle.std.specs.Prelude.{◌≡◌, ◌*◌, ◌/◌, ◌%◌, ◌^◌, ◌<◌, ◌≤◌};

use std::marker::Model;

/// A row's divisor, prepared once, so that dividing by it takes two multiplications in place of a
/// division.
///
/// It keeps the reciprocal, in units of `2^-(63 + bits)` and rounded down, where `bits` is how many
/// bits the divisor has. A first quotient by the reciprocal is at most 1 too small, which the rest
/// shows. (after Möller and Granlund, "Improved division by invariant integers", IEEE Transactions
/// on Computers 60(2), 2011) Contracts see the divisor.
#[derive(Debug, Drop)]
pub struct Divisor {
    den: u64,
    bits: u32,
    reciprocal: u64,
}

impl Model for Divisor {
    ghost use Rattle.std.specs.Prelude.{ℕ, ◌^◌};

    ghost Value = { ℕ };

    ghost use Rattle.round_out.specs.Reciprocal.{IsPrepared};

    ghost view = { λ d. d.den };

    ghost invariant = { λ d. IsPrepared d.den (2 ^ d.bits) d.reciprocal d.bits };
}

impl Divisor {
    /// Prepares the divisor.
    pub fn new(den: u64) -> Divisor
        requires positive { 0 < den }
        requires fits { den < 2 ^ 63 }
        ensures { result ≡ den }
    {
        let bits = den.ilog2() + 1;
        let one = (1u128 << bits) * (1u128 << 63);
        Divisor {
            den,
            bits,
            reciprocal: ((one - 1) / u128::from(den)) as u64,
        }
    }

    /// The divisor.
    #[inline]
    pub fn den(&self) -> u64
        ensures { result ≡ self.now }
    {
        self.den
    }

    /// The quotient of the products, and what is left over.
    #[inline]
    pub(crate) fn quotient_and_rest(&self, products: u128) -> (u64, u64)
        requires { products ≤ self.now * 2 ^ 62 }
        ensures quotient { result.0 ≡ products / self.now }
        ensures rest { result.1 ≡ products % self.now }
    {
        let den = self.den;
        // The reciprocal is in units of 2^-(63 + bits), so that `products * 4 / 2^bits` times the
        // reciprocal is the quotient in units of 2^-65. It comes out too small by less than 2: by
        // less than a half for what `scaled` drops, since the reciprocal is at most 2^64, by less than
        // a half for what the reciprocal lacks, since `scaled` is below 2^64, and by less than 1 in
        // the shift. With 2 and 64 in place of 4 and 65 the first quotient could be 2 too small, and
        // with 8 and 66 `scaled` could have 65 bits.
        let scaled = ((products * 4) >> self.bits) as u64;
        let first = ((u128::from(scaled) * u128::from(self.reciprocal)) >> 65) as u64;
        let rest = (products - u128::from(first) * u128::from(den)) as u64;
        if rest < den {
            (first, rest)
        } else {
            (first + 1, rest - den)
        }
    }
}
