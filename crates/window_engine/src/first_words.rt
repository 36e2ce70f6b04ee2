// The layer from which an engine steps.

ghost use Rattle.std.specs.Prelude.{◌≡◌, ℕ, ◌<◌, ◌≤◌, IfOk, length, slice_index};
ghost use Rattle.ctmc_semantics.specs.RoundedTables.{set_words};
ghost use Rattle.ctmc_semantics.specs.Sets.{holds_at};
ghost use Rattle.step_core.specs.WordPairs.{ArePairs, words_at};

use round_out::ONE;
use std::alloc::{AllocError, Global};
use step_core::Words;

/// The words of no jump: the lower ones are those of the goal, the upper ones are given.
///
/// The only error is want of memory.
pub(crate) fn first_words(
    alloc: Global,
    goal: &[bool],
    start: &[u64],
) -> Result<Vec<Words>, AllocError>
    requires states { length goal.now ≡ length start.now }
    requires start { (s : ℕ) → s < length start.now → slice_index start.now s ≤ ONE }
    ensures states { IfOk result (λ words. length words.items ≡ length start.now) }
    ensures words { IfOk result (λ words. (s : ℕ) → s < length start.now → words_at words.items s
        ≡ record { low = set_words (holds_at goal.now) s; high = slice_index start.now s }) }
    ensures pairs { IfOk result (λ words. ArePairs words.items) }
{
    let mut words = vec![in alloc; Words { low: 0, high: 0 }; start.len()]?;
    for state in 0..start.len() {
        words[state] = Words {
            low: if goal[state] { ONE } else { 0 },
            high: start[state],
        };
    }
    Ok(words)
}
