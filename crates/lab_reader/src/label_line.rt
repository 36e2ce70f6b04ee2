// A line of the body: a state and its labels.
ghost use Rattle.std.specs.Prelude.{All, Contains, MatchOption, MatchResult};
ghost use Rattle.text_lines.specs.Items.{line_text};
ghost use Rattle.text_lines.specs.WordLines.{word_line};
ghost use Rattle.lab_reader.specs.Declarations.{AreNames};
ghost use Rattle.lab_reader.specs.LabFault.{LineFailsBy};
ghost use Rattle.lab_reader.specs.Reading.{bytes_of, IsMaskOf, GivesMask};

use crate::names::place_of;
use text_lines::{FileWhat, Line, Name, WordIter, whole, words};

/// A state, numbered from 1, and the mask of labels that it is given: bit j for name j.
#[derive(Clone, Copy)]
pub(crate) struct Marked {
    pub(crate) state: u64,
    pub(crate) mask: u64,
}

/// What the line gives to which of `n` states, or the first check that it fails.
pub(crate) fn read_label_line(names: &[Name], n: u32, line: &Line) -> Result<Marked, FileWhat>
    requires { AreNames names.now }
    ensures { let row = word_line (line_text line.now) in
        MatchResult result (λ marked. GivesMask n names.now row marked.state marked.mask) (LineFailsBy n names.now row) }
{
    let limit = u64::from(n);
    let mut rest = words(line.bytes);
    let Some(first) = rest.next() else {
        return Err(FileWhat::Word);
    };
    let Some(state) = whole(first.bytes, limit) else {
        return Err(FileWhat::Word);
    };
    if state == 0 || state > limit {
        return Err(FileWhat::StateRange);
    }
    let Some(mask) = mask_of(names, rest) else {
        return Err(FileWhat::Undeclared);
    };
    Ok(Marked { state, mask })
}

// The mask of the labels, None where one of them isn't declared.
fn mask_of(names: &[Name], labels: WordIter<'_>) -> Option<u64>
    requires { AreNames names.now }
    ensures { let all = bytes_of labels.entry in
        MatchOption result (¬ All (Contains names.now) all) (λ mask. All (Contains names.now) all × IsMaskOf names.now all mask) }
{
    let mut mask = 0;
    for label in labels {
        let place = place_of(names, label.bytes)?;
        mask |= 1 << place;
    }
    Some(mask)
}
