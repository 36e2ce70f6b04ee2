// The plan of an until without a bound over a model.
ghost use Rattle.std.specs.Prelude.{◌≡◌, ◌≢◌, ◌≤◌, Some, None, IfOk, IfErr};
ghost use Rattle.model_core.specs.Model.{model_chain};
ghost use Rattle.poisson_tail.specs.declared.layers.TheConstants.{MOST_LAYERS};
ghost use Rattle.step_core.specs.SoundFrame.{AreSoundSets};
ghost use Rattle.uniformise.specs.TimePlan.{table_refusal};
ghost use Rattle.uniformise.specs.UnboundedPlan.{IsUnboundedPlan};

use crate::exit_rates::uniform_rate;
use crate::limits::check_words;
use crate::uniformised_frame::uniformised_frame;
use graph_reach::can_reach;
use model_core::Model;
use std::alloc::{AllocError, Global};
use step_core::{Mix, Plan, PlanError, Sets, set_layer};

/// The plan of reaching the goal through live states within any number of jumps, over the model's
/// uniformised chain (Jensen 1953; Baier, Haverkort, Hermanns, Katoen, Model-checking algorithms for
/// continuous-time Markov chains, 2003).
///
/// `jumps` is how many jumps are looked at, at least 1. The lower end of a state's bracket is reached
/// within that many jumps, and the upper end is passed by no number of jumps: the bracket may stay
/// wide where much of the chain keeps moving without a decision. `TooLarge` comes where a table would
/// have more than 2^23 words, before any memory is taken.
pub fn unbounded_plan(
    alloc: Global,
    model: &Model,
    sets: Sets,
    jumps: u32,
) -> Result<Plan, PlanError>
    requires sets { AreSoundSets model.now.n sets }
    requires some_jumps { 1 ≤ jumps }
    requires few_jumps { jumps ≤ MOST_LAYERS }
    ensures plan { IfOk result (IsUnboundedPlan (model_chain model.now) jumps sets) }
    ensures accepted { IfOk result (λ _. table_refusal jumps (model_chain model.now).states ≡ None) }
    ensures refused { IfErr result (λ error. error ≢ PlanError.Memory
        → table_refusal jumps (model_chain model.now).states ≡ Some error) }
{
    check_words(jumps, model.n())?;
    Ok(plan_over(alloc, model, sets, jumps)?)
}

// The plan of so many jumps, whose table is none too large.
fn plan_over(alloc: Global, model: &Model, sets: Sets, jumps: u32) -> Result<Plan, AllocError>
    requires sets { AreSoundSets model.now.n sets }
    requires some_jumps { 1 ≤ jumps }
    requires few_jumps { jumps ≤ MOST_LAYERS }
    ensures { IfOk result (IsUnboundedPlan (model_chain model.now) jumps sets) }
{
    let frame = uniformised_frame(alloc, model, sets, uniform_rate(model))?;
    let reach = can_reach(alloc, &frame)?;
    // A lower start would not enclose: a walk that is still under way may yet reach the goal.
    let start_upper = set_layer(alloc, &reach)?;
    Ok(Plan {
        frame,
        layers: jumps,
        start_upper,
        reach,
        mix: Mix::Last,
    })
}
