ghost use Rattle.std.specs.Prelude.{MatchOption};
ghost use Rattle.decimal_text.specs.Reading.{BeginsWithNoLetter, BeginsWithLetter, IsExponentText};
ghost use Rattle.decimal_text.specs.Reading.{IsExponentOf, IsSignedDigits, IsSignedDigitsOf};

use crate::digits::read_capped;

// A power of ten to multiply by, or to divide by. An exponent of `2^64` and more is `2^64 - 1`.
#[derive(Clone, Copy)]
pub enum Exponent {
    Up(u64),
    Down(u64),
}

// The exponent that the whole text writes. The empty text multiplies by 1.
pub fn read_exponent(text: &[u8]) -> Option<Exponent>
    ensures { MatchOption result (¬ IsExponentText text.now) (IsExponentOf text.now) }
{
    if text.is_empty() {
        return Some(Exponent::Up(0));
    }
    read_signed(after_letter(text)?)
}

// What follows the letter that an exponent begins with.
fn after_letter(text: &[u8]) -> Option<&[u8]>
    ensures { MatchOption result (BeginsWithNoLetter text.now)
        (λ signed. BeginsWithLetter text.now signed.now) }
{
    match text {
        [b'e' | b'E', signed @ ..] => Some(signed),
        _ => None,
    }
}

// The exponent that digits write after a sign or none.
fn read_signed(text: &[u8]) -> Option<Exponent>
    ensures { MatchOption result (¬ IsSignedDigits text.now) (IsSignedDigitsOf text.now) }
{
    match text {
        [b'-', digits @ ..] => Some(Exponent::Down(read_capped(digits)?)),
        [b'+', digits @ ..] => Some(Exponent::Up(read_capped(digits)?)),
        digits => Some(Exponent::Up(read_capped(digits)?)),
    }
}
