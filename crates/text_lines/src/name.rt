// Names of labels.
ghost use Rattle.std.specs.Prelude.{◌≡◌, ℕ, List, IsTrue};
ghost use Rattle.std.specs.List.{list_all};
ghost use Rattle.text_lines.specs.Name.{is_name, is_reserved, begins_name, continues_name};

use std::marker::Model;

/// The name of a label: an ASCII letter or `_`, then ASCII letters, digits and `_`, and none of the words `tt`, `ff`,
/// `P`, `S`, `X`, `U` and `quit` of the formula language.
#[derive(Debug, Drop)]
pub struct Name {
    bytes: Vec<u8>,
}

impl Model for Name {
    ghost Value = { List ℕ };

    ghost view = { λ a. a.bytes.items };

    ghost invariant = { λ a. IsTrue (is_name a.bytes.items) };
}

impl Name {
    /// The name of these bytes. `is_name` is the test.
    pub fn new(bytes: Vec<u8>) -> Name
        requires { IsTrue (is_name bytes.items) }
        ensures { result ≡ bytes.items }
    {
        Name { bytes }
    }

    /// The bytes of the name, all of them ASCII.
    pub fn bytes(&self) -> &[u8]
        ensures bytes { result.now ≡ self.now }
        ensures name { IsTrue (is_name result.now) }
    {
        &self.bytes
    }
}

/// Whether a word is a name: what `Name::new` asks of its bytes.
pub fn is_name(word: &[u8]) -> bool
    ensures { result ≡ is_name word.now }
{
    match word.split_first() {
        None => false,
        Some((first, rest)) => {
            begins_name(*first) && all_continue_name(rest) && !is_reserved(word)
        }
    }
}

// Whether a byte is an ASCII letter or `_`.
fn begins_name(byte: u8) -> bool
    ensures { result ≡ begins_name byte }
{
    byte.is_ascii_alphabetic() || byte == b'_'
}

// Whether a byte is an ASCII letter, `_` or a digit.
fn continues_name(byte: u8) -> bool
    ensures { result ≡ continues_name byte }
{
    begins_name(byte) || byte.is_ascii_digit()
}

// Whether each of these bytes is an ASCII letter, `_` or a digit.
fn all_continue_name(bytes: &[u8]) -> bool
    ensures { result ≡ list_all continues_name bytes.now }
{
    bytes.iter().all(|byte| continues_name(*byte))
}

// Whether the formula language keeps the word for itself.
fn is_reserved(word: &[u8]) -> bool
    ensures { result ≡ is_reserved word.now }
{
    matches!(word, b"tt" | b"ff" | b"P" | b"S" | b"X" | b"U" | b"quit")
}
