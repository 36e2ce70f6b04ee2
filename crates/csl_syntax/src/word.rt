// Words, and the labels among them.
ghost use Rattle.std.specs.Prelude.{◌≡◌, ◌<◌, ◌^◌, length, slice_index, IsTrue, IfSome, position, bytes_eq};
ghost use Rattle.text_lines.specs.Name.{begins_name};
ghost use Rattle.csl_syntax.specs.TokenText.{is_word};
ghost use Rattle.csl_syntax.specs.Tokens.{label_number, Writes, BeginsWithToken};

use crate::front::Front;
use crate::run::{Class, split_run};
use crate::token::Token;
use text_lines::Name;

/// The word at the head of the bytes.
pub fn first_word<'a>(bytes: &'a [u8], labels: &[Name]) -> Front<'a>
    requires some { 0 < length bytes.now }
    requires starts { IsTrue (begins_name (slice_index bytes.now 0)) }
    requires labels { length labels.now < 2 ^ 32 }
    ensures { BeginsWithToken labels.now bytes.now result.token result.rest.now }
{
    let (text, rest) = split_run(bytes, Class::Word);
    Front {
        token: word_token(text, labels),
        rest,
    }
}

// The token that the word writes.
fn word_token(word: &[u8], labels: &[Name]) -> Token
    requires word { IsTrue (is_word word.now) }
    requires labels { length labels.now < 2 ^ 32 }
    ensures { Writes labels.now word.now result }
{
    match word {
        b"tt" => Token::Truth,
        b"ff" => Token::Falsehood,
        b"P" => Token::ProbabilityWord,
        b"X" => Token::NextWord,
        b"U" => Token::UntilWord,
        b"S" | b"quit" => Token::ReservedWord,
        name => Token::Name(label_number(name, labels)),
    }
}

// The place of the name among the labels, or their number where it is none of them.
fn label_number(name: &[u8], labels: &[Name]) -> u32
    requires { length labels.now < 2 ^ 32 }
    ensures { result ≡ label_number labels.now name.now }
{
    place_of(name, labels).unwrap_or(labels.len()) as u32
}

// The place of the name among the labels, None where it is none of them.
fn place_of(name: &[u8], labels: &[Name]) -> Option<usize>
    ensures place { result ≡ position (λ label. bytes_eq label name.now) labels.now }
    ensures within { IfSome result (λ j. j < length labels.now) }
{
    labels.iter().position(|label| label.bytes() == name)
}
