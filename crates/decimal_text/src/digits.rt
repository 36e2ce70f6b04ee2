ghost use Rattle.std.specs.Prelude.{ℕ, ◌+◌, ◌^◌, ◌<◌, ◌≤◌, length, take, SomeIff};
ghost use Rattle.std.specs.Char.{digit_value};
ghost use Rattle.std.specs.Str.Parse.{IsNumeral, digits_value, digits_value_after};
ghost use Rattle.decimal_text.specs.Reading.{IsDigitRun, IsSignificand, capped};

use crate::significand::Significand;

// The digit that a byte writes.
#[inline]
fn digit_of(byte: u8) -> Option<u8>
    ensures { SomeIff result (digit_value byte < 10) (digit_value byte) }
{
    match byte {
        b'0'..=b'9' => Some(byte - b'0'),
        _ => None,
    }
}

// The digits at the head of a text: how many they are, and the number that they and those before
// them write.
#[derive(Clone, Copy)]
pub struct Run {
    pub length: usize,
    pub significand: Significand,
}

// The longest run of digits at the head of the text, after the digits of `before`.
pub fn read_digits(before: Significand, text: &[u8]) -> Run
    requires { before.zeros + length text.now < 2 ^ 64 }
    ensures run { IsDigitRun text.now result.length }
    ensures zeros { result.significand.zeros ≤ before.zeros + result.length }
    ensures number { (m : ℕ) → IsSignificand before m
        → IsSignificand result.significand (digits_value_after 10 m (take result.length text.now)) }
{
    let mut significand = before;
    for (i, byte) in text.iter().enumerate() {
        let Some(digit) = digit_of(*byte) else {
            return Run {
                length: i,
                significand,
            };
        };
        significand = significand.push(digit);
    }
    Run {
        length: text.len(),
        significand,
    }
}

// The number that digits write, or the greatest of 64 bits where it is greater; nothing where the
// text isn't digits alone.
pub fn read_capped(text: &[u8]) -> Option<u64>
    ensures { SomeIff result (IsNumeral 10 text.now) (capped (digits_value 10 text.now)) }
{
    if text.is_empty() {
        return None;
    }
    let mut number = 0u64;
    for byte in text {
        let digit = digit_of(*byte)?;
        number = number.saturating_mul(10).saturating_add(u64::from(digit));
    }
    Some(number)
}
