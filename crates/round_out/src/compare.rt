ghost use Rattle.std.specs.Prelude.{ℕ, ◌^◌, ◌<◌, ◌≤◌};
ghost use Rattle.std.specs.Ordering.{MatchOrdering};
ghost use Rattle.ctmc_semantics.specs.Fraction.{fraction, decimal_fraction, ◌≺◌, ◌≈◌};

use std::cmp::Ordering;

/// Compares `num / den` with `c / 10^x`, exactly.
pub fn cmp_frac(num: u64, den: u64, c: u64, x: u32) -> Ordering
    requires positive { 0 < den }
    requires places { x ≤ 18 }
    requires digits { c ≤ 10 ^ 18 }
    ensures { let p = fraction num den in
        let q = decimal_fraction c x in
        MatchOrdering result (p ≺ q) (p ≈ q) (q ≺ p) }
{
    let scale = 10u64.pow(x);
    let left = u128::from(num) * u128::from(scale);
    let right = u128::from(c) * u128::from(den);
    left.cmp(&right)
}

#[cfg(test)]
mod tests {
    use super::cmp_frac;
    use std::cmp::Ordering;

    #[test]
    fn one_unit_decides(rt: HostRuntime) {
        let one = 1_000_000_000_000_000_000;
        assert_eq!(rt; cmp_frac(3, 10, 3, 1), Ordering::Equal);
        assert_eq!(rt;
            cmp_frac(3, 10, 300_000_000_000_000_001, 18),
            Ordering::Less
        );
        assert_eq!(rt;
            cmp_frac(3, 10, 299_999_999_999_999_999, 18),
            Ordering::Greater
        );
        assert_eq!(rt; cmp_frac(u64::MAX, u64::MAX, one, 18), Ordering::Equal);
        assert_eq!(rt; cmp_frac(u64::MAX - 1, u64::MAX, one, 18), Ordering::Less);
        assert_eq!(rt;
            cmp_frac(u64::MAX, u64::MAX - 1, one, 18),
            Ordering::Greater
        );
    }
}
