// The lines of transitions.
ghost use Rattle.std.specs.Prelude.{ℕ, ◌<◌, ◌≤◌, IfOk, IfErr};
ghost use Rattle.text_lines.specs.WordLines.{word_lines_in};
ghost use Rattle.tra_reader.specs.Reading.{IsNextEntry, StopsAt, IsBody};

use crate::entry::{Pair, read_entry};
use crate::head::Head;
use model_core::MOST_STATES;
use std::alloc::{AllocError, Global};
use text_lines::{EntryLine, FileWhat, LineIter, next_filled};

/// The transitions that were read, and why no more of them were.
#[derive(Drop)]
pub(crate) struct Body {
    pub(crate) entries: Vec<EntryLine<Pair>>,
    pub(crate) stop: Stop,
}

/// Why no more lines were read.
#[derive(Clone, Copy)]
pub(crate) enum Stop {
    // As many as the head says were read, and there is no further line.
    AllRead,
    // There are fewer lines than the head says.
    Missing,
    // There is a further line, of this number.
    Further(u64),
    // The line of this number is wrong.
    Failing(u64, FileWhat),
}

/// The transitions of the lines after the head, until all are read or a line fails. There is room for so many at first.
pub(crate) fn read_body<'a>(
    alloc: Global,
    lines: &mut LineIter<'a>,
    head: Head,
    capacity: usize,
) -> Result<Body, AllocError>
    requires { head.states ≤ MOST_STATES }
    ensures { IfOk result (λ body. IsBody head.states head.transitions (word_lines_in lines.old) body) }
{
    let mut entries = Vec::with_capacity(alloc, capacity)?;
    for _ in 0..head.transitions {
        match next_entry(lines, head.states) {
            Ok(entry) => entries.push(entry)?,
            Err(stop) => return Ok(Body { entries, stop }),
        }
    }
    let stop = match next_filled(lines) {
        Some(line) => Stop::Further(line.number),
        None => Stop::AllRead,
    };
    Ok(Body { entries, stop })
}

// The transition of the next line, where one is due, or why there is none.
fn next_entry<'a>(lines: &mut LineIter<'a>, n: u32) -> Result<EntryLine<Pair>, Stop>
    requires { n ≤ MOST_STATES }
    ensures entry { IfOk result (λ e. IsNextEntry n (word_lines_in lines.old) e (word_lines_in lines.new)) }
    ensures stop { IfErr result (λ stop. (count done : ℕ) → done < count → StopsAt n count done (word_lines_in lines.old) stop) }
{
    let Some(line) = next_filled(lines) else {
        return Err(Stop::Missing);
    };
    match read_entry(line, n) {
        Ok(entry) => Ok(entry),
        Err(what) => Err(Stop::Failing(line.number, what)),
    }
}
