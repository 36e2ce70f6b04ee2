// The whole file.
ghost use Rattle.std.specs.Prelude.{◌≡◌, ◌⊎◌, IfOk, IfErr};
ghost use Rattle.model_core.specs.Files.{LabLists};
ghost use Rattle.text_lines.specs.Told.{IsToldBy};
ghost use Rattle.lab_reader.specs.LabFault.{LabFaultAt};
ghost use Rattle.lab_reader.specs.LabText.{LabSays};

use crate::body::read_marks;
use crate::declarations::{read_names, take_opening};
use model_core::Lab;
use std::alloc::Global;
use text_lines::{FileFault, ReadFault, lines};

/// The labels for which the text of a `.lab` file over `n` states stands, or the first fault of the text, and the line
/// at which it is.
///
/// The file has a line `#DECLARATION`, then lines of names, then a line `#END`, and then lines of a state, numbered
/// from 1, and of labels that it has. Lines are parted into words by spaces and tabs, and lines without words are
/// passed over. A line of declarations may have many names, and a line of a state any number of labels, none too. A
/// state may have many lines, or none, and has each label that one of its lines gives it.
///
/// The checks go line by line and word by word, and the first that fails is told. The line of a fault is its number in
/// the file, from 1 and with blank lines counted. Where a line is missing, it is the number of lines plus 1.
///
/// - `Header`: the first line isn't `#DECLARATION`, or this line or `#END` is missing.
/// - `Name`: a word of the declarations isn't a name, as `text_lines::is_name` tests it.
/// - `RepeatedName`: the name was declared before.
/// - `LabelsRange`: 64 names were declared before it.
/// - `Word`: a line after `#END` doesn't begin with a whole number.
/// - `StateRange`: its number isn't 1 to n.
/// - `Undeclared`: one of its labels wasn't declared.
///
/// `Memory` is for want of memory alone.
pub fn read_lab(alloc: Global, bytes: &[u8], n: u32) -> Result<Lab, ReadFault>
    ensures value { IfOk result (λ lab. LabSays bytes.now n lab) }
    ensures fault { (at : FileFault) → result ≡ Err (ReadFault.At at) → LabFaultAt bytes.now n at.line at.what }
    ensures says { (lab : LabLists) → LabSays bytes.now n lab → (result ≡ Ok lab) ⊎ (result ≡ Err ReadFault.Memory) }
    ensures faulty { (at : FileFault) → LabFaultAt bytes.now n at.line at.what
        → (result ≡ Err (ReadFault.At at)) ⊎ (result ≡ Err ReadFault.Memory) }
{
    read_lines(alloc, bytes, n)
}

// The labels of the lines, or the first of their faults.
fn read_lines(alloc: Global, bytes: &[u8], n: u32) -> Result<Lab, ReadFault>
    ensures value { IfOk result (λ lab. LabSays bytes.now n lab) }
    ensures fault { IfErr result (IsToldBy (LabFaultAt bytes.now n)) }
{
    let mut rest = lines(bytes);
    take_opening(bytes, &mut rest)?;
    let names = read_names(alloc, bytes, &mut rest)?;
    let marks = read_marks(alloc, rest, &names, n)?;
    Ok(Lab::new(names, marks))
}
