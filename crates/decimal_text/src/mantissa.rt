ghost use Rattle.std.specs.Prelude.{◌≡◌, ◌≤◌, ◌∷◌, MatchOption, IfSome, length};
ghost use Rattle.decimal_text.specs.Reading.{HasMantissa, BeginsWithNoPoint, BeginsWithMantissa};

use crate::digits::read_digits;
use crate::significand::Significand;

// A mantissa at the head of a text: the number that its digits write without the point, how many
// of them stand after the point, and the text that follows.
#[derive(Clone, Copy)]
pub struct Mantissa<'a> {
    pub significand: Significand,
    pub decimals: usize,
    pub rest: &'a [u8],
}

// The longest mantissa at the head of the text.
pub fn read_mantissa(text: &[u8]) -> Option<Mantissa<'_>>
    ensures mantissa { MatchOption result (¬ HasMantissa text.now)
        (λ m. BeginsWithMantissa text.now m.rest.now m.significand m.decimals) }
    ensures zeros { IfSome result (λ m. m.significand.zeros ≤ length text.now) }
    ensures decimals { IfSome result (λ m. m.decimals ≤ length text.now) }
{
    let whole = read_digits(Significand::new(), text);
    let rest = &text[whole.length..];
    let Some(after) = after_point(rest) else {
        if whole.length == 0 {
            return None;
        }
        return Some(Mantissa {
            significand: whole.significand,
            decimals: 0,
            rest,
        });
    };
    let decimals = read_digits(whole.significand, after);
    let digits = whole.length + decimals.length;
    if digits == 0 {
        return None;
    }
    Some(Mantissa {
        significand: decimals.significand,
        decimals: decimals.length,
        rest: &after[decimals.length..],
    })
}

// What follows the point that the text begins with.
fn after_point(text: &[u8]) -> Option<&[u8]>
    ensures { MatchOption result (BeginsWithNoPoint text.now)
        (λ after. text.now ≡ 46 ∷ after.now) }
{
    match text {
        [b'.', after @ ..] => Some(after),
        _ => None,
    }
}
