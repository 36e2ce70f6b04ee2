// What stands at the head of a line's rest.
ghost use Rattle.std.specs.Prelude.{◌≡◌, ◌<◌, ◌^◌, length, take, slice_index, All, IsTrue, not, MatchOption, MatchResult};
ghost use Rattle.text_lines.specs.Words.{is_blank};
ghost use Rattle.csl_syntax.specs.Tokens.{BeginsWithToken};
ghost use Rattle.csl_syntax.specs.Scanner.{FailsAtHead, SkipsBlanks};

use crate::fault::FormulaWhat;
use crate::number::first_number;
use crate::run::{begins_word, is_digit_or_point};
use crate::symbol::first_symbol;
use crate::token::Token;
use crate::word::first_word;
use text_lines::Name;

/// A token at the head of bytes, and what comes after it.
#[derive(Clone, Copy)]
pub struct Front<'a> {
    pub token: Token,
    pub rest: &'a [u8],
}

/// The token at the head of the bytes, which isn't empty and begins with no blank; or what fails there.
pub fn first_token<'a>(bytes: &'a [u8], labels: &[Name]) -> Result<Front<'a>, FormulaWhat>
    requires some { 0 < length bytes.now }
    requires solid { IsTrue (not (is_blank (slice_index bytes.now 0))) }
    requires labels { length labels.now < 2 ^ 32 }
    ensures { MatchResult result
        (λ front. BeginsWithToken labels.now bytes.now front.token front.rest.now)
        (FailsAtHead bytes.now) }
{
    let first = bytes[0];
    if begins_word(first) {
        return Ok(first_word(bytes, labels));
    }
    if is_digit_or_point(first) {
        return first_number(bytes);
    }
    match first_symbol(bytes) {
        Some(front) => Ok(front),
        None => Err(FormulaWhat::Token),
    }
}

/// What comes after the spaces and tabs at the head of the bytes.
pub fn skip_blanks(bytes: &[u8]) -> &[u8]
    ensures { SkipsBlanks bytes.now result.now }
{
    match leading_blanks(bytes) {
        Some(count) => &bytes[count..],
        None => &[],
    }
}

// How many blanks stand before the first byte that is none; nothing where there is no such byte.
fn leading_blanks(bytes: &[u8]) -> Option<usize>
    ensures { MatchOption result (All (λ b. IsTrue (is_blank b)) bytes.now)
        (λ n. (n < length bytes.now) × All (λ b. IsTrue (is_blank b)) (take n bytes.now)
        × IsTrue (not (is_blank (slice_index bytes.now n)))) }
{
    bytes.iter().position(|byte| !is_blank(*byte))
}

// Whether a byte is a space or a tab.
fn is_blank(byte: u8) -> bool
    ensures { result ≡ is_blank byte }
{
    byte == b' ' || byte == b'\t'
}
