// The one-thread engine: layer after layer, and in each layer state after state.

ghost use Rattle.std.specs.Prelude.{◌≡◌, ◌≤◌, All, IfOk, length, map, slice_index, if◌then◌else◌};
ghost use Rattle.ctmc_semantics.specs.RoundedTables.{row_low, row_high};
ghost use Rattle.ctmc_semantics.specs.Sets.{holds_at};
ghost use Rattle.step_core.specs.FrameRows.{frame_rows};
ghost use Rattle.step_core.specs.SoundFrame.{IsSoundRow, AreSoundSets};
ghost use Rattle.step_core.specs.SoundPlan.{IsSoundPlan};
ghost use Rattle.step_core.specs.PlanTables.{IsLayer, AreTablesOf};

use crate::plan::Plan;
use crate::row::Row;
use crate::row_value::{Standing, both_words, divisor_of};
use crate::sets::Sets;
use crate::tables::Tables;
use round_out::{Divisor, ONE};
use std::alloc::{AllocError, Global};

// The next layer of words: the value of each row over the words of the layer before.
fn next_layer(
    alloc: Global,
    rows: &[Row],
    sets: &Sets,
    low: &[u64],
    high: &[u64],
) -> Result<(Vec<u64>, Vec<u64>), AllocError>
    requires rows { All (IsSoundRow (length rows.now)) rows.now }
    requires sets { AreSoundSets (length rows.now) sets.now }
    requires low_states { length low.now ≡ length rows.now }
    requires high_states { length high.now ≡ length rows.now }
    requires low_words { All (λ w. w ≤ ONE) low.now }
    requires high_words { All (λ w. w ≤ ONE) high.now }
    ensures low { IfOk result (λ next. IsLayer (length rows.now)
        (row_low (frame_rows rows.now) (holds_at sets.now.live_must) (holds_at sets.now.goal_must)
        (slice_index low.now)) next.0.items) }
    ensures high { IfOk result (λ next. IsLayer (length rows.now)
        (row_high (frame_rows rows.now) (holds_at sets.now.live_may) (holds_at sets.now.goal_may)
        (slice_index high.now)) next.1.items) }
    ensures low_words { IfOk result (λ next. All (λ w. w ≤ ONE) next.0.items) }
    ensures high_words { IfOk result (λ next. All (λ w. w ≤ ONE) next.1.items) }
{
    let mut next_low = vec![in alloc; 0u64; rows.len()]?;
    let mut next_high = vec![in alloc; 0u64; rows.len()]?;
    let mut divisor = Divisor::new(1);
    for state in 0..rows.len() {
        let row = &rows[state];
        divisor = divisor_of(row, divisor);
        let must = Standing {
            is_goal: sets.goal_must[state],
            is_live: sets.live_must[state],
        };
        let may = Standing {
            is_goal: sets.goal_may[state],
            is_live: sets.live_may[state],
        };
        let (low_word, high_word) = both_words(row, &divisor, must, may, low, high);
        next_low[state] = low_word;
        next_high[state] = high_word;
    }
    Ok((next_low, next_high))
}

/// The layer of words of a set of states: 1 for each state of the set and 0 for each other, in units
/// of `2^-62`.
///
/// The goal's layer has the probabilities of reaching it within no jump, from which a table starts.
/// The only error is want of memory.
pub fn set_layer(alloc: Global, set: &[bool]) -> Result<Vec<u64>, AllocError>
    ensures { IfOk result (λ layer. layer.items ≡ map (λ holds. if holds then ONE else 0) set.now) }
{
    set.iter()
        .map(|holds| if *holds { ONE } else { 0 })
        .collect(alloc)
}

/// The rounded tables of a sound plan, on one thread: for each number of jumps from 0 to the plan's
/// layers, each state's word over the sets that surely hold, rounded down, and over the sets that
/// may hold, rounded up.
///
/// The only error is want of memory.
pub fn plain_tables(alloc: Global, plan: &Plan) -> Result<Tables, AllocError>
    requires sound { IsSoundPlan plan.now }
    ensures { IfOk result (AreTablesOf plan.now) }
{
    let frame = &plan.frame;
    let sets = &frame.sets;
    let layers = plan.layers as usize;
    let mut low = Vec::with_capacity(alloc, layers + 1)?;
    let mut high = Vec::with_capacity(alloc, layers + 1)?;
    low.push(set_layer(alloc, &sets.goal_must)?)?;
    high.push(Vec::from_slice(alloc, &plan.start_upper)?)?;
    for layer in 0..layers {
        let (next_low, next_high) = next_layer(
            alloc,
            &frame.rows,
            sets,
            &low[layer],
            &high[layer],
        )?;
        low.push(next_low)?;
        high.push(next_high)?;
    }
    Ok(Tables { low, high })
}

#[cfg(test)]
pub(crate) mod tests;
