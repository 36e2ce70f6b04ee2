use std::marker::Model;

// The least number that no decimal's `c` can be.
pub const LIMIT: u64 = 1_000_000_000_000_000_000;

// The most decimals that a decimal can have.
pub const MOST_DECIMALS: usize = 18;

/// The number `c / 10^x`.
///
/// `c` is below `10^18` and `x` at most 18, and the number is in normal form: `x` is 0, or 10
/// doesn't divide `c`. So two of them are the same number exactly where they are equal, and both
/// `c` and `10^x` fit 64 bits. Whoever holds one knows this on reading a field; whoever writes the
/// literal proves it.
#[derive(Clone, Copy, Debug, PartialEq, Eq)]
pub struct Decimal {
    pub c: u64,
    pub x: u32,
}

impl Model for Decimal {
    ghost use Rattle.decimal_text.specs.DecimalNumber.{DecimalNumber, IsShortDecimal};

    ghost Value = { DecimalNumber };

    ghost view = { λ d. record { c = d.c; x = d.x } };

    ghost invariant = { λ d. IsShortDecimal record { c = d.c; x = d.x } };

    ghost inverse = { λ d. record { c = d.c; x = d.x } };
}

#[cfg(test)]
mod tests {
    use super::Decimal;

    #[test]
    fn decimals_are_equal_where_their_fields_are(rt: HostRuntime) {
        let longest = Decimal {
            c: 999_999_999_999_999_999,
            x: 18,
        };
        let copy = longest;
        assert_eq!(rt; longest, copy);
        assert_ne!(rt; Decimal { c: 63, x: 2 }, Decimal { c: 63, x: 1 });
    }
}
