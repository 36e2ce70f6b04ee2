// The words of a line of a transition.
ghost use Rattle.std.specs.Prelude.{◌≡◌, ◌≢◌, ℕ, List, [], ◌∷◌, MatchOption};
ghost use Rattle.text_lines.specs.Items.{line_words};

use text_lines::words;

/// The words of a line that has three.
pub(crate) fn three_words(line: &[u8]) -> Option<(&[u8], &[u8], &[u8])>
    ensures { MatchOption result ((u v w : List ℕ) → line_words line.now ≢ u ∷ v ∷ w ∷ [])
        (λ t. line_words line.now ≡ t.0.now ∷ t.1.now ∷ t.2.now ∷ []) }
{
    let mut words = words(line);
    let first = words.next()?.bytes;
    let second = words.next()?.bytes;
    let third = words.next()?.bytes;
    if words.next().is_some() {
        return None;
    }
    Some((first, second, third))
}
