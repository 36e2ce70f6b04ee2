// The two lines that begin the file.
ghost use Rattle.std.specs.Prelude.{◌^◌, ◌<◌, ℕ, IfOk, IfErr, MatchOption};
ghost use Rattle.text_lines.specs.LinesOf.{end_line_of};
ghost use Rattle.text_lines.specs.WordLines.{word_lines_in};
ghost use Rattle.text_lines.specs.Items.{line_words};
ghost use Rattle.text_lines.specs.Told.{IsToldBy};
ghost use Rattle.tra_reader.specs.Head.{SaysCount};
ghost use Rattle.tra_reader.specs.Reading.{IsCountUpTo, IsNextCount, IsHead};
ghost use Rattle.tra_reader.specs.TraFault.{LacksCount, LinesHaveFault};

use model_core::{MOST_STATES, MOST_TRANSITIONS};
use text_lines::{FileWhat, LineIter, ReadFault, end_line, next_filled, two_words, whole};

/// How many states there are, and how many lines of transitions follow.
#[derive(Clone, Copy)]
pub(crate) struct Head {
    pub(crate) states: u32,
    pub(crate) transitions: u64,
}

// A line that says a count, by its number.
#[derive(Clone, Copy)]
struct CountLine {
    number: u64,
    count: u64,
}

/// What the first two of the lines say; the lines of transitions are left.
pub(crate) fn read_head<'a>(bytes: &'a [u8], lines: &mut LineIter<'a>) -> Result<Head, ReadFault>
    ensures head { IfOk result (λ head. IsHead (word_lines_in lines.old) head (word_lines_in lines.new)) }
    ensures fault { IfErr result (IsToldBy (LinesHaveFault (word_lines_in lines.old) (end_line_of bytes.now))) }
{
    let most = u64::from(MOST_STATES);
    let states = match next_count(bytes, lines, b"STATES", most) {
        Ok(states) => states,
        Err(number) => return Err(ReadFault::at(number, FileWhat::Header)),
    };
    if states.count == 0 || states.count > most {
        return Err(ReadFault::at(states.number, FileWhat::StatesRange));
    }
    let transitions = match next_count(bytes, lines, b"TRANSITIONS", MOST_TRANSITIONS) {
        Ok(transitions) => transitions,
        Err(number) => return Err(ReadFault::at(number, FileWhat::Header)),
    };
    if transitions.count > MOST_TRANSITIONS {
        return Err(ReadFault::at(transitions.number, FileWhat::TransitionsRange));
    }
    Ok(Head {
        states: states.count as u32,
        transitions: transitions.count,
    })
}

// The count that the first of the lines says after the keyword, or the line at which it is missing.
fn next_count<'a>(
    bytes: &'a [u8],
    lines: &mut LineIter<'a>,
    keyword: &[u8],
    limit: u64,
) -> Result<CountLine, u64>
    requires { limit < 2 ^ 63 }
    ensures count { IfOk result (λ c. IsNextCount limit keyword.now (word_lines_in lines.old) c (word_lines_in lines.new)) }
    ensures lacking { IfErr result (λ number. LacksCount keyword.now (word_lines_in lines.old) (end_line_of bytes.now) number) }
{
    let Some(line) = next_filled(lines) else {
        return Err(end_line(bytes));
    };
    match count_of(line.bytes, keyword, limit) {
        Some(count) => Ok(CountLine {
            number: line.number,
            count,
        }),
        None => Err(line.number),
    }
}

// The count that a line says, or `limit + 1` where it is greater than the limit: the line has two
// words, the keyword and a whole number.
fn count_of(line: &[u8], keyword: &[u8], limit: u64) -> Option<u64>
    requires { limit < 2 ^ 63 }
    ensures { MatchOption result ((count : ℕ) → ¬ SaysCount keyword.now (line_words line.now) count)
        (λ c. IsCountUpTo limit keyword.now (line_words line.now) c) }
{
    let (first, second) = two_words(line)?;
    if first != keyword {
        return None;
    }
    whole(second, limit)
}
