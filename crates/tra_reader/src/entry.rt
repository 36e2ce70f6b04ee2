// The line of a transition.
ghost use Rattle.std.specs.Prelude.{◌≤◌, IfOk, IfErr};
ghost use Rattle.text_lines.specs.Entries.{HasKey};
ghost use Rattle.text_lines.specs.EntryLines.{IsEntryLine, FailsAnyway};
ghost use Rattle.text_lines.specs.Items.{row_of_line};
ghost use Rattle.tra_reader.specs.Entries.{transition_lines};
ghost use Rattle.tra_reader.specs.Pairs.{pair_of};

use crate::row::three_words;
use decimal_text::read;
use model_core::MOST_STATES;
use text_lines::{EntryLine, FileWhat, Line, whole};

/// The two states of a transition, numbered from 0. With it an `EntryLine` has 24 bytes.
#[derive(Clone, Copy)]
pub(crate) struct Pair {
    pub(crate) from: u16,
    pub(crate) to: u16,
}

// The two states of a line, numbered from 1, and the word of its rate.
#[derive(Clone, Copy)]
struct StatesWord<'a> {
    from: u64,
    to: u64,
    rate: &'a [u8],
}

/// The transition that the line writes between two of n states, or what is wrong with the line.
pub(crate) fn read_entry(line: Line<'_>, n: u32) -> Result<EntryLine<Pair>, FileWhat>
    requires { n ≤ MOST_STATES }
    ensures entry { IfOk result (IsEntryLine (transition_lines n) pair_of (row_of_line line.entry)) }
    ensures fault { IfErr result (FailsAnyway (transition_lines n) (row_of_line line.entry)) }
{
    let states = read_states(line, n)?;
    match read(states.rate) {
        Ok(rate) => Ok(EntryLine {
            line: line.number,
            digits: rate.c,
            decimals: rate.x,
            key: Pair {
                from: (states.from - 1) as u16,
                to: (states.to - 1) as u16,
            },
        }),
        Err(fault) => Err(FileWhat::Number(fault)),
    }
}

// The states of a line of three words, and the third word; or what is wrong with them.
fn read_states<'a>(line: Line<'a>, n: u32) -> Result<StatesWord<'a>, FileWhat>
    ensures states { IfOk result
        (λ s. HasKey (transition_lines n) (row_of_line line.entry) (record { from = s.from; to = s.to }) s.rate.now) }
    ensures fault { IfErr result (FailsAnyway (transition_lines n) (row_of_line line.entry)) }
{
    let Some((from, to, rate)) = three_words(line.bytes) else {
        return Err(FileWhat::Word);
    };
    let most = u64::from(n);
    let (Some(from), Some(to)) = (whole(from, most), whole(to, most)) else {
        return Err(FileWhat::Word);
    };
    if from == 0 || from > most || to == 0 || to > most {
        return Err(FileWhat::StateRange);
    }
    Ok(StatesWord { from, to, rate })
}
