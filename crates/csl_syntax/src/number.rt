// Numbers.
ghost use Rattle.std.specs.Prelude.{ℕ, ◌<◌, List, length, slice_index, IsTrue, MatchOption, MatchResult};
ghost use Rattle.std.specs.Char.{is_ascii_digit};
ghost use Rattle.decimal_text.specs.Reading.{BeginsWithNoLetter, BeginsWithLetter};
ghost use Rattle.csl_syntax.specs.TokenText.{is_digit_or_point};
ghost use Rattle.csl_syntax.specs.Tokens.{BeginsWithToken};
ghost use Rattle.csl_syntax.specs.Scanner.{EndsRun, BeginsWithDigits, BeginsWithExponent, HasNoExponent};
ghost use Rattle.csl_syntax.specs.Scanner.{BeginsWithNoSign, BeginsWithSign, SplitsNumber, FailsAtHead};

use crate::fault::FormulaWhat;
use crate::front::Front;
use crate::run::{Class, split_run};
use crate::token::Token;
use decimal_text::read;

/// What begins as a number at the head of the bytes.
pub fn first_number(bytes: &[u8]) -> Result<Front<'_>, FormulaWhat>
    requires some { 0 < length bytes.now }
    requires starts { IsTrue (is_digit_or_point (slice_index bytes.now 0)) }
    ensures { MatchResult result
        (λ front. (labels : List (List ℕ)) → BeginsWithToken labels bytes.now front.token front.rest.now)
        (FailsAtHead bytes.now) }
{
    let (text, rest) = split_number(bytes);
    match read(text) {
        Ok(value) => Ok(Front {
            token: Token::Number(value),
            rest,
        }),
        Err(_) => Err(FormulaWhat::Number),
    }
}

// The text of what begins as a number at the head of the bytes, and what comes after it.
fn split_number(bytes: &[u8]) -> (&[u8], &[u8])
    requires some { 0 < length bytes.now }
    requires starts { IsTrue (is_digit_or_point (slice_index bytes.now 0)) }
    ensures { SplitsNumber bytes.now result.0.now result.1.now }
{
    let (mantissa, after) = split_run(bytes, Class::Mantissa);
    match after_exponent(after) {
        Some(rest) => bytes.split_at(bytes.len() - rest.len()),
        None => (mantissa, after),
    }
}

// What comes after the exponent at the head of the bytes, with all its digits; nothing where none stands there.
fn after_exponent(bytes: &[u8]) -> Option<&[u8]>
    ensures { MatchOption result (HasNoExponent bytes.now) (λ rest. BeginsWithExponent bytes.now rest.now) }
{
    let signed = after_letter(bytes)?;
    match after_sign(signed) {
        Some(digits) => after_digits(digits),
        None => after_digits(signed),
    }
}

// What comes after the letter that an exponent begins with.
fn after_letter(bytes: &[u8]) -> Option<&[u8]>
    ensures { MatchOption result (BeginsWithNoLetter bytes.now) (λ rest. BeginsWithLetter bytes.now rest.now) }
{
    match bytes {
        [b'e' | b'E', rest @ ..] => Some(rest),
        _ => None,
    }
}

// What comes after a sign.
fn after_sign(bytes: &[u8]) -> Option<&[u8]>
    ensures { MatchOption result (BeginsWithNoSign bytes.now) (λ rest. BeginsWithSign bytes.now rest.now) }
{
    match bytes {
        [b'+' | b'-', rest @ ..] => Some(rest),
        _ => None,
    }
}

// What comes after the digits at the head of the bytes; nothing where none stands there.
fn after_digits(bytes: &[u8]) -> Option<&[u8]>
    ensures { MatchOption result (EndsRun is_ascii_digit bytes.now) (λ rest. BeginsWithDigits bytes.now rest.now) }
{
    let (digits, rest) = split_run(bytes, Class::Digit);
    if digits.is_empty() {
        return None;
    }
    Some(rest)
}
