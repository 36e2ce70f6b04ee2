// The layers of a plan, two at a time.

ghost use Rattle.std.specs.Prelude.{◌≡◌, ℕ, suc, ◌+◌, ◌<◌, IfOk, length};
ghost use Rattle.flat_rows.specs.NextWords.{HasFixed};
ghost use Rattle.flat_rows.specs.RowsOf.{AreFit, AreRowsOf};
ghost use Rattle.step_core.specs.SoundPlan.{IsSoundPlan};
ghost use Rattle.step_core.specs.WordPairs.{ArePairs};
ghost use Rattle.window_engine.specs.PlanLayers.{AreAtLayer, IsPlanLayer, TookLayers};

use crate::first_words::first_words;
use flat_rows::{FlatRows, flatten, next_words};
use mix_columns::Mixers;
use std::alloc::{AllocError, Global};
use step_core::{Plan, Words};

/// Steps from a layer to the next one, and the mixers take both.
///
/// Both have the words that need no row.
fn take_two(plan: &Plan, flat: &FlatRows, words: &[Words], next: &mut [Words], mixers: &mut Mixers)
    requires sound { IsSoundPlan plan.now }
    requires rows { AreRowsOf plan.now.frame.rows plan.now.frame.sets plan.now.reach 0 (length plan.now.frame.rows) flat.now }
    requires fit { AreFit (length plan.now.frame.rows) (length plan.now.frame.rows) flat.now }
    requires layer { (k : ℕ) × AreAtLayer plan.now k words.now mixers.old }
    requires fixed { HasFixed plan.now.frame.sets plan.now.reach 0 words.now }
    requires pairs { ArePairs words.now }
    requires next_states { length next.old ≡ length plan.now.frame.rows }
    requires next_fixed { HasFixed plan.now.frame.sets plan.now.reach 0 next.old }
    requires next_pairs { ArePairs next.old }
    ensures next { (k : ℕ) → IsPlanLayer plan.now k words.now → IsPlanLayer plan.now (k + 1) next.new }
    ensures took { (k : ℕ) → IsPlanLayer plan.now k words.now → TookLayers plan.now k mixers.old → TookLayers plan.now (k + 2) mixers.new }
    ensures next_fixed { HasFixed plan.now.frame.sets plan.now.reach 0 next.new }
    ensures next_pairs { ArePairs next.new }
{
    next_words(flat, words, next);
    mixers.add_two_layers(plan, words, next);
}

/// Steps from the first layer to the last, two at a time, and the mixers take each.
///
/// `even` has the words of no jump at first, and then those of each even number of jumps. `odd` has
/// the words that need no row.
fn run_layers(
    plan: &Plan,
    flat: &FlatRows,
    even: &mut [Words],
    odd: &mut [Words],
    mixers: &mut Mixers,
)
    requires sound { IsSoundPlan plan.now }
    requires rows { AreRowsOf plan.now.frame.rows plan.now.frame.sets plan.now.reach 0 (length plan.now.frame.rows) flat.now }
    requires fit { AreFit (length plan.now.frame.rows) (length plan.now.frame.rows) flat.now }
    requires even { IsPlanLayer plan.now 0 even.old }
    requires even_fixed { HasFixed plan.now.frame.sets plan.now.reach 0 even.old }
    requires even_pairs { ArePairs even.old }
    requires odd_states { length odd.old ≡ length plan.now.frame.rows }
    requires odd_fixed { HasFixed plan.now.frame.sets plan.now.reach 0 odd.old }
    requires odd_pairs { ArePairs odd.old }
    requires mixers { TookLayers plan.now 0 mixers.old }
    ensures { TookLayers plan.now (suc plan.now.layers) mixers.new }
{
    let layers = plan.layers as usize;
    for pair in 0..layers / 2 {
        take_two(plan, flat, even, odd, mixers);
        next_words(flat, odd, even);
    }
    if layers % 2 == 1 {
        take_two(plan, flat, even, odd, mixers);
    } else {
        mixers.add_layer(plan, even);
    }
}

/// The mixers of all states, which took all layers of the plan.
///
/// The only error is want of memory.
#[tactic(auto, using(crate::proofs::LayerSteps::fixed_at_start))]
pub(crate) fn all_layers(alloc: Global, plan: &Plan) -> Result<Mixers, AllocError>
    requires { IsSoundPlan plan.now }
    ensures { IfOk result (TookLayers plan.now (suc plan.now.layers)) }
{
    let frame = &plan.frame;
    let sets = &frame.sets;
    let flat = flatten(alloc, &frame.rows, sets, &plan.reach, 0, frame.rows.len())?;
    let mut even = first_words(alloc, &sets.goal_must, &plan.start_upper)?;
    let mut odd = Vec::from_slice(alloc, &even)?;
    let mut mixers = Mixers::start(alloc, plan)?;
    run_layers(plan, &flat, &mut even, &mut odd, &mut mixers);
    Ok(mixers)
}
