ghost use Rattle.std.specs.Prelude.{◌≡◌, ◌-◌, ◌^◌, ◌≤◌, IfOk, drop};
ghost use Rattle.decimal_text.specs.Digits.{fixed_digits};
ghost use Rattle.decimal_text.specs.NumberValue.{StandsFor};
ghost use Rattle.decimal_text.specs.Text.{canonical_text, text12};

use crate::decimal::{Decimal, MOST_DECIMALS};
use crate::powers::power_of_ten;
use itoa::Buffer;
use std::alloc::{AllocError, Global};

// The units of 1.
const ONE: u64 = 1_000_000_000_000;

// The bytes of the longest text that a decimal has: `0`, a point and 18 decimals.
const LONGEST_TEXT: usize = 20;

/// The text of `units / 10^12`: one digit, a point and 12 digits.
pub fn write12(units: u64) -> [u8; 14]
    requires { units ≤ 10 ^ 12 }
    ensures { result ≡ text12 units }
{
    let mut text = [b'.'; 14];
    text[0] = b'0' + (units / ONE) as u8;
    let mut rest = units % ONE;
    for written in 0..12 {
        text[13 - written] = b'0' + (rest % 10) as u8;
        rest /= 10;
    }
    text
}

/// The decimal's text: its whole part and, where it has decimals, a point and these.
///
/// It has no exponent and no needless zero, and `read` gives the decimal back. Only want of memory
/// fails.
pub fn print(alloc: Global, value: Decimal) -> Result<Vec<u8>, AllocError>
    ensures text { IfOk result (λ text. text.items ≡ canonical_text value) }
    ensures reads_back { IfOk result (λ text. StandsFor text.items value) }
{
    let mut text = Vec::with_capacity(alloc, LONGEST_TEXT)?;
    let mut digits = Buffer::new();
    if value.x == 0 {
        text.extend_from_slice(digits.format(value.c).as_bytes())?;
        return Ok(text);
    }
    let decimals = value.x as usize;
    let whole = value.c / power_of_ten(decimals);
    text.extend_from_slice(digits.format(whole).as_bytes())?;
    text.push(b'.')?;
    text.extend_from_slice(&last_digits(value.c, decimals)[MOST_DECIMALS - decimals..])?;
    Ok(text)
}

// The last digits of the value, at the end of an array, with leading zeros where it has fewer.
fn last_digits(value: u64, count: usize) -> [u8; MOST_DECIMALS]
    requires { count ≤ MOST_DECIMALS }
    ensures { drop (MOST_DECIMALS - count) result ≡ fixed_digits count value }
{
    let mut digits = [b'0'; MOST_DECIMALS];
    let mut rest = value;
    for written in 0..count {
        digits[MOST_DECIMALS - 1 - written] = b'0' + (rest % 10) as u8;
        rest /= 10;
    }
    digits
}

#[cfg(test)]
mod tests {
    use super::write12;

    #[test]
    fn units_are_written_with_twelve_decimals(rt: HostRuntime) {
        assert_eq!(rt; write12(0), *b"0.000000000000");
        assert_eq!(rt; write12(1), *b"0.000000000001");
        assert_eq!(rt; write12(300_000_000_000), *b"0.300000000000");
        assert_eq!(rt; write12(999_999_999_999), *b"0.999999999999");
        assert_eq!(rt; write12(1_000_000_000_000), *b"1.000000000000");
    }
}
