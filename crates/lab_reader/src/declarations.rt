// The declarations: the lines from the opening one to the closing one.
ghost use Rattle.std.specs.Prelude.{◌≡◌, ℕ, [], ◌∷◌, ◌++◌, MatchResult, OnOk};
ghost use Rattle.text_lines.specs.Items.{line_text};
ghost use Rattle.text_lines.specs.LinesOf.{lines_of};
ghost use Rattle.text_lines.specs.WordLines.{word_line, word_lines_in, word_lines_of};
ghost use Rattle.text_lines.specs.Told.{IsToldBy};
ghost use Rattle.lab_reader.specs.Declarations.{AreNames, Declares};
ghost use Rattle.lab_reader.specs.LabFault.{LabFaultAt, HasFailingWord};
ghost use Rattle.lab_reader.specs.Reading.{IsFreshName, HasNames};

use crate::names::name_fault;
use crate::only::is_only;
use std::alloc::{AllocError, Global};
use text_lines::{FileWhat, Line, LineIter, Name, ReadFault, end_line, next_filled, words};

/// The names that the file of these bytes declares, and what is left of it after its closing line.
pub(crate) fn read_names(
    alloc: Global,
    bytes: &[u8],
    rest: &mut LineIter<'_>,
) -> Result<Vec<Name>, ReadFault>
    requires { HasNames (word_lines_of bytes.now) [] (word_lines_in rest.old) }
    ensures { MatchResult result
        (λ names. Declares (word_lines_of bytes.now) names.items (word_lines_in rest.new))
        (IsToldBy (λ line what. (n : ℕ) → LabFaultAt bytes.now n line what)) }
{
    let mut names = Vec::new(alloc);
    while let Some(line) = next_filled(rest) {
        if is_only(&line, b"#END") {
            return Ok(names);
        }
        declare_line(alloc, &mut names, &line)?;
    }
    Err(ReadFault::at(end_line(bytes), FileWhat::Header))
}

/// Goes past the opening line.
pub(crate) fn take_opening(bytes: &[u8], rest: &mut LineIter<'_>) -> Result<(), ReadFault>
    requires { rest.old ≡ lines_of bytes.now }
    ensures { MatchResult result
        (λ _. HasNames (word_lines_of bytes.now) [] (word_lines_in rest.new))
        (IsToldBy (λ line what. (n : ℕ) → LabFaultAt bytes.now n line what)) }
{
    match next_filled(rest) {
        None => Err(ReadFault::at(end_line(bytes), FileWhat::Header)),
        Some(line) => {
            if is_only(&line, b"#DECLARATION") {
                Ok(())
            } else {
                Err(ReadFault::at(line.number, FileWhat::Header))
            }
        }
    }
}

// Declares the words of the line after these names.
fn declare_line(alloc: Global, names: &mut Vec<Name>, line: &Line) -> Result<(), ReadFault>
    requires { AreNames names.old.items }
    ensures { let row = word_line (line_text line.now) in
        MatchResult result
        (λ _. (names.new.items ≡ names.old.items ++ row.words) × AreNames names.new.items)
        (IsToldBy (λ number what. (number ≡ row.number) × HasFailingWord names.old.items row.words what)) }
{
    for word in words(line.bytes) {
        if let Some(what) = name_fault(names, word.bytes) {
            return Err(ReadFault::at(line.number, what));
        }
        push_name(alloc, names, word.bytes)?;
    }
    Ok(())
}

// Adds a name.
fn push_name(alloc: Global, names: &mut Vec<Name>, word: &[u8]) -> Result<(), AllocError>
    requires { IsFreshName names.old.items word.now }
    ensures { OnOk result (names.new.items ≡ names.old.items ++ word.now ∷ []) }
{
    names.push(Name::new(Vec::from_slice(alloc, word)?))?;
    Ok(())
}
