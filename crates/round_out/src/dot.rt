ghost use Rattle.std.specs.Prelude.{◌≡◌, ◌+◌, ◌*◌, ◌/◌, ◌^◌, ◌<◌, ◌≤◌};
ghost use Rattle.std.specs.Int.{div_ceil};

use crate::divisor::Divisor;
use crate::word::ONE;
use std::marker::Model;

/// The value of a row as it is added up, entry by entry: the sum of its numbers times their
/// targets' words, and the sum of its numbers.
///
/// The words are probabilities in units of `2^-62` and never above 1, so the value is a probability
/// too once it is divided by the row's divisor.
#[derive(Debug, Drop)]
pub struct Dot {
    products: u128,
    numbers: u64,
}

impl Model for Dot {
    ghost use Rattle.std.specs.Prelude.{◌*◌, ◌^◌, ◌<◌, ◌≤◌};
    ghost use Rattle.round_out.specs.Sums.{Sums};

    ghost Value = { Sums };

    ghost view = { λ d. record { products = d.products; numbers = d.numbers } };

    ghost invariant = { λ d. (d.numbers < 2 ^ 63) × (d.products ≤ d.numbers * 2 ^ 62) };
}

impl Dot {
    /// Of no entry.
    #[inline]
    pub fn new() -> Dot
        ensures { result ≡ record { products = 0; numbers = 0 } }
    {
        Dot {
            products: 0,
            numbers: 0,
        }
    }

    /// Adds the entry with the number `num`, whose target has the word `word`.
    #[inline]
    pub fn add(&mut self, num: u64, word: u64)
        requires word { word ≤ ONE }
        requires room { self.old.numbers + num < 2 ^ 63 }
        ensures products { self.new.products ≡ self.old.products + num * word }
        ensures numbers { self.new.numbers ≡ self.old.numbers + num }
    {
        self.products += u128::from(num) * u128::from(word);
        self.numbers += num;
    }

    /// The row's value, rounded down. The divisor is at least the sum of the numbers.
    #[inline]
    pub fn floor(&self, den: u64) -> u64
        requires positive { 0 < den }
        requires whole { self.now.numbers ≤ den }
        ensures value { result ≡ self.now.products / den }
        ensures at_most_one { result ≤ ONE }
    {
        (self.products / u128::from(den)) as u64
    }

    /// The row's value, rounded up. The divisor is at least the sum of the numbers.
    #[inline]
    pub fn ceil(&self, den: u64) -> u64
        requires positive { 0 < den }
        requires whole { self.now.numbers ≤ den }
        ensures value { result ≡ div_ceil self.now.products den }
        ensures at_most_one { result ≤ ONE }
    {
        self.products.div_ceil(u128::from(den)) as u64
    }

    /// As `floor`, by a divisor that is prepared.
    #[inline]
    pub fn floor_by(&self, divisor: &Divisor) -> u64
        requires whole { self.now.numbers ≤ divisor.now }
        ensures value { result ≡ self.now.products / divisor.now }
        ensures at_most_one { result ≤ ONE }
    {
        divisor.quotient_and_rest(self.products).0
    }

    /// As `ceil`, by a divisor that is prepared.
    #[inline]
    pub fn ceil_by(&self, divisor: &Divisor) -> u64
        requires whole { self.now.numbers ≤ divisor.now }
        ensures value { result ≡ div_ceil self.now.products divisor.now }
        ensures at_most_one { result ≤ ONE }
    {
        let (quotient, rest) = divisor.quotient_and_rest(self.products);
        if rest == 0 { quotient } else { quotient + 1 }
    }
}

#[cfg(test)]
mod tests {
    use super::Dot;
    use crate::divisor::Divisor;
    use crate::word::ONE;

    #[test]
    fn values_are_rounded_both_ways(rt: HostRuntime) {
        let tenths = Divisor::new(10);
        let mut dot = Dot::new();
        dot.add(3, ONE);
        dot.add(7, 0);
        assert_eq!(rt; dot.floor(10), 1_383_505_805_528_216_371);
        assert_eq!(rt; dot.ceil(10), 1_383_505_805_528_216_372);
        assert_eq!(rt; dot.floor_by(&tenths), 1_383_505_805_528_216_371);
        assert_eq!(rt; dot.ceil_by(&tenths), 1_383_505_805_528_216_372);
    }

    #[test]
    fn the_greatest_row_is_one(rt: HostRuntime) {
        let greatest = Divisor::new(9_223_372_036_854_775_807);
        assert_eq!(rt; greatest.den(), 9_223_372_036_854_775_807);
        let mut dot = Dot::new();
        dot.add(9_223_372_036_854_775_807, ONE);
        assert_eq!(rt; dot.floor(9_223_372_036_854_775_807), ONE);
        assert_eq!(rt; dot.ceil(9_223_372_036_854_775_807), ONE);
        assert_eq!(rt; dot.floor_by(&greatest), ONE);
        assert_eq!(rt; dot.ceil_by(&greatest), ONE);
    }
}
