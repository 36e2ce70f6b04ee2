// The two lists of weights.

ghost use Rattle.std.specs.Prelude.{◌≡◌, ℕ, ◌+◌, ◌<◌, ◌≤◌, length, slice_index, IfOk};
ghost use Rattle.ctmc_semantics.specs.RoundedTables.{one_word};
ghost use Rattle.ctmc_semantics.specs.Weights.{mode, low_weight, high_weight};
ghost use Rattle.step_core.specs.PlanLoad.{AreWeightsOf};
ghost use Rattle.step_core.specs.SoundPlan.{AreSoundWeights};

use crate::layers::MOST_LAYERS;
use crate::load::Load;
use crate::steps::{high_downward, high_upward, low_downward, low_upward};
use round_out::ONE;
use std::alloc::{AllocError, Global};
use step_core::Weights;

/// The rounded weights of 0 to `last` jumps, made outward from the mode, whose own weight is 1.
/// (after Fox and Glynn, CACM 31(4), 1988, here rounded on both sides)
///
/// They enclose the exact weights, closely where `last` is the load's horizon
/// (`ctmc_semantics::weights_enclose` and `weights_are_near`). The load may be any whose mode is among
/// the numbers of jumps, also one without a horizon. The two lists are all the memory that is taken,
/// and want of it is the only refusal.
pub fn weights(alloc: Global, load: &Load, last: u32) -> Result<Weights, AllocError>
    requires has_mode { mode load.now ≤ last }
    requires few { last ≤ MOST_LAYERS }
    ensures of_load { IfOk result (AreWeightsOf load.now last) }
    ensures sound { IfOk result (AreSoundWeights last) }
    ensures low_mode { IfOk result (λ w. slice_index w.low (mode load.now) ≡ one_word) }
    ensures high_mode { IfOk result (λ w. slice_index w.high (mode load.now) ≡ one_word) }
    ensures divisor { 0 < load.now.den }
{
    let mode = load.mode() as usize;
    let mut low = vec![in alloc; 0u64; last as usize + 1]?;
    let mut high = vec![in alloc; 0u64; last as usize + 1]?;
    low[mode] = ONE;
    high[mode] = ONE;
    write_below_mode(load, &mut low, &mut high);
    write_above_mode(load, &mut low, &mut high);
    Ok(Weights { low, high })
}

// Writes the weights below the mode, each from the one above it.
fn write_below_mode(load: &Load, low: &mut [u64], high: &mut [u64])
    requires has_mode { mode load.now < length low.old }
    requires few { length low.old ≤ MOST_LAYERS + 1 }
    requires as_long { length high.old ≡ length low.old }
    requires low_mode { slice_index low.old (mode load.now) ≡ one_word }
    requires high_mode { slice_index high.old (mode load.now) ≡ one_word }
    ensures low { (k : ℕ) → k ≤ mode load.now → slice_index low.new k ≡ low_weight load.now k }
    ensures high { (k : ℕ) → k ≤ mode load.now → slice_index high.new k ≡ high_weight load.now k }
{
    let mode = load.mode() as usize;
    let fine = load.fine_load();
    for k in (0..mode).rev() {
        let jumps = k as u128 + 1;
        low[k] = low_downward(low[k + 1], fine + 1, jumps);
        high[k] = high_downward(high[k + 1], fine, jumps);
    }
}

// Writes the weights above the mode, each from the one below it.
fn write_above_mode(load: &Load, low: &mut [u64], high: &mut [u64])
    requires has_mode { mode load.now < length low.old }
    requires few { length low.old ≤ MOST_LAYERS + 1 }
    requires as_long { length high.old ≡ length low.old }
    requires low_known { (k : ℕ) → k ≤ mode load.now → slice_index low.old k ≡ low_weight load.now k }
    requires high_known { (k : ℕ) → k ≤ mode load.now → slice_index high.old k ≡ high_weight load.now k }
    ensures low { (k : ℕ) → k < length low.new → slice_index low.new k ≡ low_weight load.now k }
    ensures high { (k : ℕ) → k < length high.new → slice_index high.new k ≡ high_weight load.now k }
{
    let mode = load.mode() as usize;
    let fine = load.fine_load();
    for k in mode + 1..low.len() {
        low[k] = low_upward(low[k - 1], fine, k as u128);
        high[k] = high_upward(high[k - 1], fine + 1, k as u128);
    }
}
