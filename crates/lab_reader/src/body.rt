// The body: the lines after the declarations.
ghost use Rattle.std.specs.Prelude.{MatchResult};
ghost use Rattle.text_lines.specs.Told.{IsToldBy};
ghost use Rattle.text_lines.specs.WordLines.{word_lines_in};
ghost use Rattle.lab_reader.specs.Declarations.{AreNames};
ghost use Rattle.lab_reader.specs.LabFault.{BodyFails};
ghost use Rattle.lab_reader.specs.Reading.{GivesMarks};

use crate::label_line::read_label_line;
use std::alloc::Global;
use text_lines::{LineIter, Name, ReadFault, next_filled};

/// The marks that these lines give to `n` states, or the first of their faults.
pub(crate) fn read_marks(
    alloc: Global,
    mut rest: LineIter<'_>,
    names: &[Name],
    n: u32,
) -> Result<Vec<u64>, ReadFault>
    requires { AreNames names.now }
    ensures { let body = word_lines_in rest.entry in
        MatchResult result (λ marks. GivesMarks n names.now body marks.items) (IsToldBy (BodyFails n names.now body)) }
{
    let mut marks = vec![in alloc; 0; n as usize]?;
    while let Some(line) = next_filled(&mut rest) {
        match read_label_line(names, n, &line) {
            Ok(marked) => marks[marked.state as usize - 1] |= marked.mask,
            Err(what) => return Err(ReadFault::at(line.number, what)),
        }
    }
    Ok(marks)
}
