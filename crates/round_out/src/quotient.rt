ghost use Rattle.std.specs.Prelude.{◌≡◌, ◌*◌, ◌/◌, ◌^◌, ◌<◌};
ghost use Rattle.std.specs.Int.{div_ceil};

/// `a * b / d`, rounded down. The product may pass 64 bits, the quotient may not.
pub fn mul_div_floor(a: u64, b: u64, d: u64) -> u64
    requires positive { 0 < d }
    requires fits { a * b / d < 2 ^ 64 }
    ensures { result ≡ a * b / d }
{
    (u128::from(a) * u128::from(b) / u128::from(d)) as u64
}

/// `a * b / d`, rounded up. The product may pass 64 bits, the quotient may not.
pub fn mul_div_ceil(a: u64, b: u64, d: u64) -> u64
    requires positive { 0 < d }
    requires fits { div_ceil (a * b) d < 2 ^ 64 }
    ensures { result ≡ div_ceil (a * b) d }
{
    (u128::from(a) * u128::from(b)).div_ceil(u128::from(d)) as u64
}

#[cfg(test)]
mod tests {
    use super::{mul_div_ceil, mul_div_floor};

    #[test]
    fn quotients_are_exact_at_the_ends(rt: HostRuntime) {
        let most = u64::MAX;
        assert_eq!(rt; mul_div_floor(most, most, most), most);
        assert_eq!(rt; mul_div_ceil(most, most, most), most);
        assert_eq!(rt; mul_div_floor(0, most, 1), 0);
        assert_eq!(rt; mul_div_ceil(0, most, 1), 0);
        assert_eq!(rt; mul_div_floor(1 << 63, 3, 7), 3_952_873_730_080_618_203);
        assert_eq!(rt; mul_div_ceil(1 << 63, 3, 7), 3_952_873_730_080_618_204);
    }
}
