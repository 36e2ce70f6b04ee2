// The line of a state's reward.
ghost use Rattle.std.specs.Prelude.{◌+◌, IfOk, IfErr};
ghost use Rattle.model_core.specs.StateNumber.{state_number};
ghost use Rattle.text_lines.specs.Entries.{HasKey};
ghost use Rattle.text_lines.specs.EntryLines.{IsEntryLine, FailsAnyway};
ghost use Rattle.text_lines.specs.Items.{row_of_line};
ghost use Rattle.rew_reader.specs.RewardLines.{reward_lines};

use decimal_text::read;
use text_lines::{EntryLine, FileWhat, Line, two_words, whole};

// The state of a line, numbered from 0, and the word of its reward.
#[derive(Clone, Copy)]
struct StateWord<'a> {
    state: u32,
    reward: &'a [u8],
}

/// The reward that the line writes for one of n states, which is kept by its number from 0; or what is wrong with the
/// line, whatever lines stand before it.
pub(crate) fn read_entry(line: Line<'_>, n: u32) -> Result<EntryLine<u32>, FileWhat>
    ensures entry { IfOk result (IsEntryLine (reward_lines n) state_number (row_of_line line.entry)) }
    ensures fault { IfErr result (FailsAnyway (reward_lines n) (row_of_line line.entry)) }
{
    let word = read_state(line, n)?;
    match read(word.reward) {
        Ok(reward) => Ok(EntryLine {
            line: line.number,
            digits: reward.c,
            decimals: reward.x,
            key: word.state,
        }),
        Err(fault) => Err(FileWhat::Number(fault)),
    }
}

// The state of a line of two words, and the second word; or what is wrong with them.
fn read_state<'a>(line: Line<'a>, n: u32) -> Result<StateWord<'a>, FileWhat>
    ensures state { IfOk result (λ s. HasKey (reward_lines n) (row_of_line line.entry) (state_number s.state) s.reward.now) }
    ensures fault { IfErr result (FailsAnyway (reward_lines n) (row_of_line line.entry)) }
{
    let Some((number, reward)) = two_words(line.bytes) else {
        return Err(FileWhat::Word);
    };
    let most = u64::from(n);
    let Some(number) = whole(number, most) else {
        return Err(FileWhat::Word);
    };
    if number == 0 || number > most {
        return Err(FileWhat::StateRange);
    }
    Ok(StateWord {
        state: (number - 1) as u32,
        reward,
    })
}
