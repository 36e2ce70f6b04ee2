ghost use Rattle.std.specs.Prelude.{◌≡◌, ℕ, ◌+◌, ◌*◌, ◌^◌, ◌<◌, ◌≤◌};
ghost use Rattle.decimal_text.specs.Reading.{IsSignificand};

use crate::decimal::LIMIT;
use crate::powers::shifted;

// The number that digits write, as its digits up to the last that isn't 0 and the zeros after
// them. Digits of `10^18` and more are `10^18`.
#[derive(Clone, Copy)]
pub struct Significand {
    pub digits: u64,
    pub zeros: u64,
}

impl Significand {
    // The number of no digits.
    pub fn new() -> Self
        ensures zeros { result.zeros ≡ 0 }
        ensures number { IsSignificand result 0 }
    {
        Significand {
            digits: 0,
            zeros: 0,
        }
    }

    // One digit more.
    pub fn push(self, digit: u8) -> Self
        requires digit { digit < 10 }
        requires room { self.zeros + 1 < 2 ^ 64 }
        ensures zeros { result.zeros ≤ self.zeros + 1 }
        ensures number { (m : ℕ) → IsSignificand self m → IsSignificand result (m * 10 + digit) }
    {
        if digit == 0 {
            return Significand {
                digits: self.digits,
                zeros: self.zeros + 1,
            };
        }
        let front = shifted(self.digits, u128::from(self.zeros) + 1);
        Significand {
            digits: (front + u64::from(digit)).min(LIMIT),
            zeros: 0,
        }
    }
}
