// Lines of one word.
ghost use Rattle.std.specs.Prelude.{◌↔◌, IsTrue};
ghost use Rattle.text_lines.specs.Items.{line_text};
ghost use Rattle.text_lines.specs.WordLines.{word_line};
ghost use Rattle.lab_reader.specs.Declarations.{IsOnly};

use text_lines::{Line, words};

/// Whether the line has this one word.
pub(crate) fn is_only(line: &Line, word: &[u8]) -> bool
    ensures { IsTrue result ↔ IsOnly word.now (word_line (line_text line.now)) }
{
    let mut rest = words(line.bytes);
    let Some(first) = rest.next() else {
        return false;
    };
    rest.next().is_none() && first.bytes == word
}
