// The lines that are not blank, and their words.
ghost use Rattle.std.specs.Prelude.{◌≡◌, ◌≢◌, List, ℕ, [], ◌∷◌, MatchOption};
ghost use Rattle.text_lines.specs.Items.{line_words, row_of_line};
ghost use Rattle.text_lines.specs.WordLines.{word_lines_in};

use crate::{Line, LineIter, words};

/// The next line that isn't blank, and nothing where no such line is left. All lines up to it are taken from the
/// iterator.
pub fn next_filled<'a>(lines: &mut LineIter<'a>) -> Option<Line<'a>>
    ensures { MatchOption result ((word_lines_in lines.old ≡ []) × (word_lines_in lines.new ≡ []))
        (λ line. word_lines_in lines.old ≡ row_of_line line ∷ word_lines_in lines.new) }
{
    while let Some(line) = lines.next() {
        if words(line.bytes).next().is_some() {
            return Some(line);
        }
    }
    None
}

/// The words of a line that has exactly two.
pub fn two_words(line: &[u8]) -> Option<(&[u8], &[u8])>
    ensures { MatchOption result ((v w : List ℕ) → line_words line.now ≢ v ∷ w ∷ [])
        (λ t. line_words line.now ≡ t.0.now ∷ t.1.now ∷ []) }
{
    let mut words = words(line);
    let first = words.next()?.bytes;
    let second = words.next()?.bytes;
    if words.next().is_some() {
        return None;
    }
    Some((first, second))
}
