// The whole file.
ghost use Rattle.std.specs.Prelude.{◌≡◌, ◌⊎◌, length, IfOk, IfErr};
ghost use Rattle.model_core.specs.Files.{RewLists};
ghost use Rattle.text_lines.specs.Told.{IsToldBy};
ghost use Rattle.rew_reader.specs.RewFault.{RewFaultAt};
ghost use Rattle.rew_reader.specs.RewText.{RewSays};

use crate::entries::read_entries;
use crate::rewards::{first_large, rewards_of};
use model_core::Rew;
use std::alloc::Global;
use text_lines::{FileFault, FileWhat, ReadFault, scale_of};

/// The rewards of n states, from the bytes of a `.rew` file; or the first thing that is wrong with the file, and at
/// which line.
///
/// Each line that isn't blank has a state, numbered from 1, and its reward for each unit of time. No two lines are of
/// one state, and a state without a line has the reward 0. The scale is the greatest number of decimals that a reward
/// has, and at that scale each reward must be below `2^63`.
///
/// The lines are looked at in order, and the scale last; the first check that fails is told.
///
/// - `Word`: a line hasn't two words, or the first isn't a whole number.
/// - `StateRange`: its state isn't 1 to n.
/// - `Number`: its second word can't be read as a reward.
/// - `Repeated`: an earlier line is of the same state, whatever the rewards.
/// - `RewardScale`: where nothing else is wrong, this is the first line whose reward, in units of `10^-scale`, is
///   `2^63` or more.
///
/// `Memory` is for want of memory alone.
pub fn read_rew(alloc: Global, bytes: &[u8], n: u32) -> Result<Rew, ReadFault>
    ensures value { IfOk result (λ rew. RewSays bytes.now n rew) }
    ensures states { IfOk result (λ rew. length rew.rewards ≡ n) }
    ensures fault { (at : FileFault) → result ≡ Err (ReadFault.At at) → RewFaultAt bytes.now n at.line at.what }
    ensures says { (rew : RewLists) → RewSays bytes.now n rew → (result ≡ Ok rew) ⊎ (result ≡ Err ReadFault.Memory) }
    ensures faulty { (at : FileFault) → RewFaultAt bytes.now n at.line at.what
        → (result ≡ Err (ReadFault.At at)) ⊎ (result ≡ Err ReadFault.Memory) }
{
    read_lines(alloc, bytes, n)
}

// The rewards of the lines, or the first of their faults.
fn read_lines(alloc: Global, bytes: &[u8], n: u32) -> Result<Rew, ReadFault>
    ensures value { IfOk result (λ rew. RewSays bytes.now n rew) }
    ensures states { IfOk result (λ rew. length rew.rewards ≡ n) }
    ensures fault { IfErr result (IsToldBy (RewFaultAt bytes.now n)) }
{
    let entries = read_entries(alloc, bytes, n)?;
    let scale = scale_of(&entries);
    if let Some(place) = first_large(&entries, scale) {
        return Err(ReadFault::at(entries[place].line, FileWhat::RewardScale));
    }
    let rewards = rewards_of(alloc, &entries, n, scale)?;
    Ok(Rew::new(scale, rewards))
}
