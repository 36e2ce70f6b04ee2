// The lines of the formulas that are answered.
ghost use Rattle.std.specs.Prelude.{◌≡◌};
ghost use Rattle.session.specs.FormulaLines.{formula_lines, line_kind};
ghost use Rattle.text_lines.specs.Items.{line_words};

use std::marker::Model;
use text_lines::{Line, LineIter, lines, words};

const QUIT: &[u8] = b"quit";

// What a line of the formulas is.
#[derive(Clone, Copy, Debug, PartialEq, Eq)]
enum LineKind {
    Blank,
    // Its only word is `quit`.
    Quit,
    Formula,
}

impl LineKind {
    fn of(line: &[u8]) -> LineKind
        ensures { result ≡ line_kind (line_words line.now) }
    {
        let mut words = words(line);
        match words.next() {
            None => LineKind::Blank,
            Some(word) if word.bytes == QUIT && words.next().is_none() => LineKind::Quit,
            Some(_) => LineKind::Formula,
        }
    }
}

/// The lines of the formulas that are still to be answered, in order: those that aren't blank, up to the first whose only
/// word is `quit`. It takes no memory, and each line is a part of the text.
#[derive(Clone, Debug, Drop)]
pub(crate) struct FormulaLines<'a> {
    lines: LineIter<'a>,
}

impl<'a> Model for FormulaLines<'a> {
    ghost use Rattle.std.specs.Prelude.{List};
    ghost use Rattle.text_lines.specs.Lines.{LineText};
    ghost use Rattle.session.specs.FormulaLines.{answered_lines};

    ghost Value = { List LineText };

    ghost view = { λ it. answered_lines it.lines };
}

impl<'a> Iterator for FormulaLines<'a> {
    ghost use Rattle.std.specs.Iterator.{YieldsFirstBy, item_count};
    ghost use Rattle.text_lines.specs.Items.{line_text};

    type Item = Line<'a>;

    ghost next_gives = { YieldsFirstBy line_text (λ it. it) };

    ghost remaining = { item_count (λ it. it) };

    fn next(&mut self) -> Option<Line<'a>> {
        while let Some(line) = self.lines.next() {
            match LineKind::of(line.bytes) {
                LineKind::Blank => {}
                LineKind::Quit => {
                    self.lines = lines(b"");
                    return None;
                }
                LineKind::Formula => return Some(line),
            }
        }
        None
    }
}

/// The lines of the text that are answered.
pub(crate) fn formula_lines(text: &[u8]) -> FormulaLines<'_>
    ensures { result ≡ formula_lines text.now }
{
    FormulaLines { lines: lines(text) }
}
