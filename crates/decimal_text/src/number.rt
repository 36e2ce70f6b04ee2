ghost use Rattle.std.specs.Prelude.{◌≡◌, ℕ, ◌+◌, ◌^◌, ◌<◌, ◌↔◌, IfOk};
ghost use Rattle.decimal_text.specs.DecimalNumber.{DecimalNumber, IsShortDecimal};
ghost use Rattle.decimal_text.specs.Spelling.{IsNumber};
ghost use Rattle.decimal_text.specs.NumberValue.{StandsFor, IsTooFine, IsTooBig};
ghost use Rattle.decimal_text.specs.Reading.{IsSignificand, IsScale, AreTens, IsAnswerFor};

use crate::decimal::{Decimal, LIMIT, MOST_DECIMALS};
use crate::exponent::{Exponent, read_exponent};
use crate::mantissa::read_mantissa;
use crate::number_fault::NumberFault;
use crate::powers::shifted;
use crate::significand::Significand;

/// The number that the whole word writes, exactly and in normal form. It takes no memory.
///
/// A number is a mantissa and then an exponent or none. A mantissa is digits, which may have one
/// point before, among or after them, and no sign. An exponent is `e` or `E`, a sign or none, and
/// digits. The value is `M * 10^(e - f)`, where `M` is what the mantissa's digits write without the
/// point, `f` counts those after the point, and `e` is the exponent, 0 where there is none. Neither
/// part has a limit of length: `0e999999999999999999999` is 0.
pub fn read(word: &[u8]) -> Result<Decimal, NumberFault>
    ensures value { IfOk result (λ d. StandsFor word.now d) }
    ensures number { (d : DecimalNumber) → StandsFor word.now d → IsShortDecimal d → result ≡ Ok d }

    ensures not_number { (result ≡ Err NumberFault.NotNumber) ↔ (¬ IsNumber word.now) }
    ensures too_fine { (result ≡ Err NumberFault.TooFine) ↔ IsTooFine word.now }
    ensures too_big { (result ≡ Err NumberFault.TooBig) ↔ IsTooBig word.now }
{
    let Some(mantissa) = read_mantissa(word) else {
        return Err(NumberFault::NotNumber);
    };
    let Some(exponent) = read_exponent(mantissa.rest) else {
        return Err(NumberFault::NotNumber);
    };
    normal_form(mantissa.significand, mantissa.decimals, exponent)
}

// The significand, divided by `10^decimals` and scaled by the exponent, in normal form.
fn normal_form(
    significand: Significand,
    decimals: usize,
    exponent: Exponent,
) -> Result<Decimal, NumberFault>
    requires number { (m : ℕ) × IsSignificand significand m }
    requires zeros { significand.zeros < 2 ^ 63 }
    requires decimals { decimals < 2 ^ 63 }
    ensures { (m up down : ℕ) → IsSignificand significand m → IsScale exponent up down
        → IsAnswerFor m up (decimals + down) result }
{
    if significand.digits == 0 {
        return Ok(Decimal { c: 0, x: 0 });
    }
    let (up, down) = tens(significand.zeros, decimals, exponent);
    if up < down {
        if down - up > MOST_DECIMALS as u128 {
            return Err(NumberFault::TooFine);
        }
        if significand.digits >= LIMIT {
            return Err(NumberFault::TooBig);
        }
        return Ok(Decimal {
            c: significand.digits,
            x: (down - up) as u32,
        });
    }
    let c = shifted(significand.digits, up - down);
    if c >= LIMIT {
        return Err(NumberFault::TooBig);
    }
    Ok(Decimal { c, x: 0 })
}

// The tens by which the digits are to be multiplied, and those by which they are to be divided.
fn tens(zeros: u64, decimals: usize, exponent: Exponent) -> (u128, u128)
    ensures { AreTens zeros decimals exponent result.0 result.1 }
{
    let (zeros, decimals) = (u128::from(zeros), decimals as u128);
    match exponent {
        Exponent::Up(up) => (zeros + u128::from(up), decimals),
        Exponent::Down(down) => (zeros, decimals + u128::from(down)),
    }
}

#[cfg(test)]
mod tests;
