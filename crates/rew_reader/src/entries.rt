// The lines of rewards.
ghost use Rattle.std.specs.Prelude.{[], ◌≡◌, ◌∷◌, ◌++◌, IfOk, IfErr};
ghost use Rattle.model_core.specs.StateNumber.{state_number};
ghost use Rattle.text_lines.specs.EntryLines.{AreRead};
ghost use Rattle.text_lines.specs.Told.{IsToldBy};
ghost use Rattle.text_lines.specs.WordLines.{word_lines_of};
ghost use Rattle.rew_reader.specs.RewardLines.{reward_lines};
ghost use Rattle.rew_reader.specs.RewFault.{LinesHaveFault};

use crate::entry::read_entry;
use std::alloc::{AllocError, Global};
use text_lines::{EntryLine, FileWhat, ReadFault, lines, next_filled};

/// The rewards of the lines, in their order, each of another state; or the first thing that is wrong with a line, the
/// scale aside.
pub(crate) fn read_entries(
    alloc: Global,
    bytes: &[u8],
    n: u32,
) -> Result<Vec<EntryLine<u32>>, ReadFault>
    ensures read { IfOk result (λ entries. AreRead (reward_lines n) state_number (word_lines_of bytes.now) entries.items) }
    ensures fault { IfErr result (IsToldBy (LinesHaveFault n (word_lines_of bytes.now))) }
{
    let mut rest = lines(bytes);
    let mut entries = Vec::new(alloc);
    let mut has_entry = vec![in alloc; false; n as usize]?;
    while let Some(line) = next_filled(&mut rest) {
        let entry = match read_entry(line, n) {
            Ok(entry) => entry,
            Err(what) => return Err(ReadFault::at(line.number, what)),
        };
        let state = entry.key as usize;
        if has_entry[state] {
            return Err(ReadFault::at(line.number, FileWhat::Repeated));
        }
        has_entry[state] = true;
        push(&mut entries, entry)?;
    }
    Ok(entries)
}

// The entries, and then this one.
fn push(entries: &mut Vec<EntryLine<u32>>, entry: EntryLine<u32>) -> Result<(), AllocError>
    ensures { IfOk result (λ _. entries.new.items ≡ entries.old.items ++ entry ∷ []) }
{
    entries.push(entry)?;
    Ok(())
}
