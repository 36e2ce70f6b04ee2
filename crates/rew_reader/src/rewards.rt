// The rewards at one scale.
ghost use Rattle.std.specs.Prelude.{◌≡◌, ◌<◌, ◌≤◌, ◌≢◌, map, All, AllPairs, IfOk, MatchOption};
ghost use Rattle.std.specs.List.{range_with_len};
ghost use Rattle.model_core.specs.StateNumber.{state_number};
ghost use Rattle.text_lines.specs.Entries.{keys_of};
ghost use Rattle.text_lines.specs.EntryLines.{entries_of};
ghost use Rattle.rew_reader.specs.Reading.{IsInRange, IsFirstLarge};
ghost use Rattle.rew_reader.specs.RewText.{reward_of};

use model_core::AMOUNT_LIMIT;
use std::alloc::{AllocError, Global};
use text_lines::{EntryLine, value_at};

/// The place of the first entry whose reward is `2^63` or more at the scale.
pub(crate) fn first_large(entries: &[EntryLine<u32>], scale: u32) -> Option<usize>
    requires decimals { All (λ e. e.decimals ≤ scale) entries.now }
    requires scale { scale ≤ 18 }
    ensures { MatchOption result (All (IsInRange scale) entries.now) (λ place. IsFirstLarge scale entries.now place) }
{
    entries
        .iter()
        .position(|entry| value_at(entry, scale) >= u128::from(AMOUNT_LIMIT))
}

/// The reward of each of n states at the scale, 0 where it has no entry.
pub(crate) fn rewards_of(
    alloc: Global,
    entries: &[EntryLine<u32>],
    n: u32,
    scale: u32,
) -> Result<Vec<u64>, AllocError>
    requires states { All (λ e. e.key < n) entries.now }
    requires once { AllPairs ◌≢◌ (keys_of (entries_of state_number entries.now)) }
    requires decimals { All (λ e. e.decimals ≤ scale) entries.now }
    requires scale { scale ≤ 18 }
    requires range { All (IsInRange scale) entries.now }
    ensures { IfOk result
        (λ rewards. rewards.items ≡ map (reward_of scale (entries_of state_number entries.now)) (range_with_len 0 n)) }
{
    let mut rewards = vec![in alloc; 0u64; n as usize]?;
    for entry in entries {
        rewards[entry.key as usize] = value_at(entry, scale) as u64;
    }
    Ok(rewards)
}
