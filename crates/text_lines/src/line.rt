// The lines of a text.
ghost use Rattle.std.specs.Prelude.{◌≡◌, ◌⊎◌, ◌+◌, ◌^◌, ◌<◌, ◌≤◌, ◌∷◌, [], ◌++◌, length, MatchOption};
ghost use Rattle.text_lines.specs.Lines.{HasNoLf, EndsWithCr, HasLines};
ghost use Rattle.text_lines.specs.LinesOf.{lines_of, end_line_of, line_bytes};

use std::iter::FusedIterator;
use std::marker::Model;

/// A line of a text, without the LF or the CR LF that ends it.
#[derive(Clone, Copy, Debug, PartialEq, Eq)]
pub struct Line<'a> {
    /// Its number in the text, from 1.
    pub number: u64,
    pub bytes: &'a [u8],
}

/// The lines of a text that are still to come, in order. It takes no memory, and each line is a
/// part of the text.
#[derive(Clone, Debug, Drop)]
pub struct LineIter<'a> {
    number: u64,
    rest: &'a [u8],
}

impl<'a> Model for LineIter<'a> {
    ghost use Rattle.std.specs.Prelude.{List, ◌+◌, ◌^◌, ◌<◌, length};
    ghost use Rattle.text_lines.specs.Lines.{LineText, numbered_from};
    ghost use Rattle.text_lines.specs.LinesOf.{line_bytes};

    ghost Value = { List LineText };

    ghost view = { λ it. numbered_from it.number (line_bytes it.rest.now) };

    ghost invariant = { λ it. it.number + length it.rest.now < 2 ^ 64 };
}

impl<'a> Iterator for LineIter<'a> {
    ghost use Rattle.std.specs.Iterator.{YieldsFirstBy, item_count};
    ghost use Rattle.text_lines.specs.Items.{line_text};

    type Item = Line<'a>;

    ghost next_gives = { YieldsFirstBy line_text (λ it. it) };

    ghost remaining = { item_count (λ it. it) };

    fn next(&mut self) -> Option<Line<'a>> {
        if self.rest.is_empty() {
            return None;
        }
        let (bytes, rest) = first_line(self.rest);
        let number = self.number;
        self.number += 1;
        self.rest = rest;
        Some(Line { number, bytes })
    }
}

impl<'a> FusedIterator for LineIter<'a> {}

/// The lines of the bytes, numbered from 1.
///
/// A line ends before LF, before CR LF, or at the end of the bytes. The LF, and a CR directly before
/// it, are no part of the line; any other CR is. Where the bytes end with LF there is no further
/// line after it, and no bytes have no lines.
pub fn lines(bytes: &[u8]) -> LineIter<'_>
    ensures lines { HasLines bytes.now result }
    ensures computed { result ≡ lines_of bytes.now }
    ensures few { length result ≤ length bytes.now }
{
    LineIter {
        number: 1,
        rest: bytes,
    }
}

/// The number of lines plus 1: the line at which a file ends that lacks something at its end.
pub fn end_line(bytes: &[u8]) -> u64
    ensures { result ≡ end_line_of bytes.now }
{
    lines(bytes).count() as u64 + 1
}

// The first line of a text that isn't empty, and what comes after it and its ending.
fn first_line(text: &[u8]) -> (&[u8], &[u8])
    requires { 0 < length text.now }
    ensures line { line_bytes text.now ≡ result.0.now ∷ line_bytes result.1.now }
    ensures shorter { length result.1.now < length text.now }
{
    match split_at_lf(text) {
        Some((line, rest)) => (without_cr(line), rest),
        None => (text, &[]),
    }
}

// What comes before the first LF, and what comes after it; nothing where there is none.
fn split_at_lf(text: &[u8]) -> Option<(&[u8], &[u8])>
    ensures { MatchOption result (HasNoLf text.now) (λ t. (text.now ≡ t.0.now ++ 10 ∷ t.1.now) × HasNoLf t.0.now) }
{
    let end = text.iter().position(|byte| *byte == b'\n')?;
    Some((&text[..end], &text[end + 1..]))
}

// The bytes before a CR at the end, or all of them where there is none.
fn without_cr(bytes: &[u8]) -> &[u8]
    ensures { (bytes.now ≡ result.now ++ 13 ∷ []) ⊎ ((result.now ≡ bytes.now) × (¬ EndsWithCr bytes.now)) }
{
    match bytes {
        [front @ .., b'\r'] => front,
        _ => bytes,
    }
}
