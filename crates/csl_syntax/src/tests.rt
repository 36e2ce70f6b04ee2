ghost use Rattle.std.specs.Prelude.{◌<◌, ◌^◌, length};

use super::*;
use std::alloc::{AllocError, Global};
use std::process::Abort;
use std::test::Fail;
use text_lines::{Name, is_name};

mod drawn;
mod drawn_lines;
mod faults;
mod formulas;
mod lengths;
mod texts;

// The words as names of labels.
fn labels_of(alloc: Global, words: &[&[u8]]) -> Result<Vec<Name>, AllocError> {
    let mut labels = Vec::new(alloc);
    for word in words {
        if is_name(word) {
            labels.push(Name::new(Vec::from_slice(alloc, word)?))?;
        }
    }
    Ok(labels)
}

// The line, read over the labels a, b and c.
fn read(rt: &impl Abort, alloc: Global, line: &[u8]) -> Result<Formula, ParseFault> {
    let labels = labels_of(alloc, &[b"a", b"b", b"c"])?;
    assert_eq!(rt; labels.len(), 3);
    parse(alloc, line, &labels)
}

// The line has this fault in this column.
fn check_fault(rt: &impl Abort, alloc: Global, line: &[u8], column: u32, what: FormulaWhat) {
    let fault = FormulaFault { column, what };
    assert_eq!(rt;
        read(rt, alloc, line).err(),
        Some(ParseFault::At(fault)),
        "{line:?}"
    );
}

// The lines stand for one formula.
fn check_same(rt: &impl Abort, alloc: Global, line: &[u8], other: &[u8]) -> Result<(), Fail> {
    let formula = read(rt, alloc, line)?;
    assert_eq!(rt; formula, read(rt, alloc, other)?, "{line:?}");
    Ok(())
}

// The lines stand for two formulas.
fn check_other(rt: &impl Abort, alloc: Global, line: &[u8], other: &[u8]) -> Result<(), Fail> {
    let formula = read(rt, alloc, line)?;
    assert_ne!(rt; formula, read(rt, alloc, other)?, "{line:?}");
    Ok(())
}
