// Symbols.
ghost use Rattle.std.specs.Prelude.{◌≡◌, ℕ, false, [], ◌∷◌, List, MatchOption};
ghost use Rattle.csl_syntax.specs.TokenText.{is_symbol};
ghost use Rattle.csl_syntax.specs.Tokens.{BeginsWithToken};
ghost use Rattle.csl_syntax.specs.Scanner.{HasNoPair, HasNoSymbol, IsSymbolOf};

use crate::formula::Op;
use crate::front::Front;
use crate::token::Token;

/// The symbol at the head of the bytes, the longer one where two fit; nothing where none stands there.
pub fn first_symbol(bytes: &[u8]) -> Option<Front<'_>>
    ensures { MatchOption result (HasNoSymbol bytes.now)
        (λ front. (labels : List (List ℕ)) → BeginsWithToken labels bytes.now front.token front.rest.now) }
{
    match first_pair(bytes) {
        Some(front) => Some(front),
        None => first_single(bytes),
    }
}

// The symbol of two bytes at the head of the bytes.
fn first_pair(bytes: &[u8]) -> Option<Front<'_>>
    ensures { MatchOption result (HasNoPair bytes.now)
        (λ front. (labels : List (List ℕ)) → BeginsWithToken labels bytes.now front.token front.rest.now) }
{
    let [first, second, rest @ ..] = bytes else {
        return None;
    };
    let token = pair(*first, *second)?;
    Some(Front { token, rest })
}

// The symbol of one byte at the head of the bytes, where none of two stands there.
fn first_single(bytes: &[u8]) -> Option<Front<'_>>
    requires { HasNoPair bytes.now }
    ensures { MatchOption result (HasNoSymbol bytes.now)
        (λ front. (labels : List (List ℕ)) → BeginsWithToken labels bytes.now front.token front.rest.now) }
{
    let [first, rest @ ..] = bytes else {
        return None;
    };
    let token = single(*first)?;
    Some(Front { token, rest })
}

// The token of a symbol of two bytes.
fn pair(first: u8, second: u8) -> Option<Token>
    ensures { MatchOption result (is_symbol (first ∷ second ∷ []) ≡ false) (IsSymbolOf (first ∷ second ∷ [])) }
{
    match (first, second) {
        (b'&', b'&') => Some(Token::AndAnd),
        (b'|', b'|') => Some(Token::OrOr),
        (b'<', b'=') => Some(Token::Compare(Op::AtMost)),
        (b'>', b'=') => Some(Token::Compare(Op::AtLeast)),
        _ => None,
    }
}

// The token of a symbol of one byte.
fn single(byte: u8) -> Option<Token>
    ensures { MatchOption result (is_symbol (byte ∷ []) ≡ false) (IsSymbolOf (byte ∷ [])) }
{
    match byte {
        b'!' => Some(Token::Bang),
        b'(' => Some(Token::OpenParen),
        b')' => Some(Token::CloseParen),
        b'{' => Some(Token::OpenBrace),
        b'}' => Some(Token::CloseBrace),
        b'[' => Some(Token::OpenBracket),
        b']' => Some(Token::CloseBracket),
        b',' => Some(Token::Comma),
        b'~' => Some(Token::Tilde),
        b'<' => Some(Token::Compare(Op::Less)),
        b'>' => Some(Token::Compare(Op::More)),
        _ => None,
    }
}
