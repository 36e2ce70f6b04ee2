// Lines that were drawn, against what a reader and a printer in Python say of them.
ghost use Rattle.std.specs.Prelude.{◌<◌, ◌^◌, length};

use super::drawn_lines::{LABELS, LINES};
use super::*;

// What is said of a line: the canonical text of its formula, or the column and the kind of its fault.
fn said_of(alloc: Global, line: &[u8], labels: &[Name]) -> Result<Vec<u8>, Fail>
    requires { length labels.now < 2 ^ 32 }
{
    let formula = match parse(alloc, line, labels) {
        Err(ParseFault::At(fault)) => {
            let said = format!(in alloc; "{} {:?}", fault.column, fault.what)?;
            return Ok(said.as_bytes().to_vec(alloc)?);
        }
        read => read?,
    };
    formulas_are_over_labels();
    Ok(print(alloc, &formula, labels)?)
}

#[test]
fn drawn_lines_are_read_and_printed(rt: HostRuntime) -> Result<(), Fail> {
    let alloc = rt.alloc();
    let labels = labels_of(alloc, &LABELS)?;
    assert_eq!(rt; labels.len(), LABELS.len());
    let mut line: Option<&[u8]> = None;
    for next in LINES.split(|byte| *byte == b'\n') {
        line = match line {
            None => Some(next),
            Some(drawn) => {
                let said = said_of(alloc, drawn, &labels)?;
                assert_eq!(rt; said.as_slice(), next, "{drawn:?}");
                None
            }
        };
    }
    Ok(())
}
