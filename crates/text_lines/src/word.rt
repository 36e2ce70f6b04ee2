// The words of a line.
ghost use Rattle.std.specs.Prelude.{◌≡◌, ◌+◌, ◌^◌, ◌<◌, ◌≤◌, ◌++◌, length, take, slice_index, All, IsTrue, not, MatchOption};
ghost use Rattle.text_lines.specs.Words.{HasWords, HasNoBlank, FirstIsBlank, is_blank};
ghost use Rattle.text_lines.specs.WordsOf.{words_of};

use std::iter::FusedIterator;
use std::marker::Model;

/// A word of a line: a longest run of bytes other than space and tab.
#[derive(Clone, Copy, Debug, PartialEq, Eq)]
pub struct Word<'a> {
    /// The position of its first byte in the line, from 1.
    pub column: u64,
    pub bytes: &'a [u8],
}

/// The words of a line that are still to come, in order. It takes no memory, and each word is a
/// part of the line.
#[derive(Clone, Debug, Drop)]
pub struct WordIter<'a> {
    column: u64,
    rest: &'a [u8],
}

impl<'a> Model for WordIter<'a> {
    ghost use Rattle.std.specs.Prelude.{List, ◌+◌, ◌^◌, ◌<◌, length};
    ghost use Rattle.text_lines.specs.Words.{WordText};
    ghost use Rattle.text_lines.specs.WordsOf.{words_from};

    ghost Value = { List WordText };

    ghost view = { λ it. words_from it.column it.rest.now };

    ghost invariant = { λ it. it.column + length it.rest.now < 2 ^ 64 };
}

impl<'a> Iterator for WordIter<'a> {
    ghost use Rattle.std.specs.Iterator.{YieldsFirstBy, item_count};
    ghost use Rattle.text_lines.specs.Items.{word_text};

    type Item = Word<'a>;

    ghost next_gives = { YieldsFirstBy word_text (λ it. it) };

    ghost remaining = { item_count (λ it. it) };

    fn next(&mut self) -> Option<Word<'a>> {
        let blanks = leading_blanks(self.rest)?;
        let (bytes, rest) = split_word(&self.rest[blanks..]);
        let column = self.column + blanks as u64;
        self.column = column + bytes.len() as u64;
        self.rest = rest;
        Some(Word { column, bytes })
    }
}

impl<'a> FusedIterator for WordIter<'a> {}

/// The words of the line, with their columns from 1, which count bytes.
///
/// A word is a longest run of bytes other than space and tab. A blank line has no words.
pub fn words(line: &[u8]) -> WordIter<'_>
    ensures words { HasWords line.now result }
    ensures computed { result ≡ words_of line.now }
    ensures few { length result ≤ length line.now }
{
    WordIter {
        column: 1,
        rest: line,
    }
}

// Whether a byte is a space or a tab.
fn is_blank(byte: u8) -> bool
    ensures { result ≡ is_blank byte }
{
    byte == b' ' || byte == b'\t'
}

// How many blanks stand before the first byte of a word; nothing where there is no word.
fn leading_blanks(bytes: &[u8]) -> Option<usize>
    ensures { MatchOption result (All (λ b. IsTrue (is_blank b)) bytes.now)
        (λ n. (n < length bytes.now) × All (λ b. IsTrue (is_blank b)) (take n bytes.now) × IsTrue (not (is_blank (slice_index bytes.now n)))) }
{
    bytes.iter().position(|byte| !is_blank(*byte))
}

// The bytes before the first blank, or all of them where there is none, and then the others.
fn split_word(bytes: &[u8]) -> (&[u8], &[u8])
    ensures text { bytes.now ≡ result.0.now ++ result.1.now }
    ensures solid { HasNoBlank result.0.now }
    ensures longest { FirstIsBlank result.1.now }
{
    match bytes.iter().position(|byte| is_blank(*byte)) {
        Some(end) => bytes.split_at(end),
        None => (bytes, &[]),
    }
}
