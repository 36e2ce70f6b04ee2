// The plan of a time-bounded until over a model.
ghost use Rattle.std.specs.Prelude.{◌≡◌, ◌≢◌, ◌<◌, ◌≤◌, ◌^◌, All, Some, None, IfOk, IfErr};
ghost use Rattle.ctmc_semantics.specs.Uniformised.{greatest_exit_rate, time_load, uniform_rate};
ghost use Rattle.model_core.specs.Model.{model_chain};
ghost use Rattle.step_core.specs.SoundFrame.{AreSoundSets};
ghost use Rattle.uniformise.specs.TimePlan.{IsTimePlan, time_refusal};

use crate::exit_rates::greatest_exit_rate;
use crate::limits::last_layer;
use crate::load_plan::plan_of_load;
use crate::uniformised_frame::uniformised_frame;
use decimal_text::Decimal;
use model_core::Model;
use poisson_tail::Load;
use std::alloc::Global;
use step_core::{Plan, PlanError, Sets};

/// The plan of reaching the goal through live states within the time, over the model's uniformised
/// chain (Jensen 1953).
///
/// Its layers go up to the horizon, past which at most `2^-bits` is left. Each state has its row of
/// the uniformised chain, also where no word depends on it. `TooLong` comes where the horizon is
/// past 16,384 jumps, and else `TooLarge` where a table would have more than 2^23 words; both before
/// any memory is taken.
pub fn time_plan(
    alloc: Global,
    model: &Model,
    sets: Sets,
    time: Decimal,
    bits: u32,
) -> Result<Plan, PlanError>
    requires sets { AreSoundSets model.now.n sets }
    requires some_bits { 8 ≤ bits }
    requires few_bits { bits ≤ 48 }
    ensures plan { IfOk result (IsTimePlan (model_chain model.now)
        (time_load (model_chain model.now) model.now.scale time.c time.x) bits sets) }
    ensures divisors { IfOk result (λ plan. All (λ row. row.den ≡ uniform_rate (model_chain model.now)) plan.frame.rows) }
    ensures accepted { IfOk result (λ _. time_refusal (model_chain model.now) model.now.scale bits time ≡ None) }
    ensures refused { IfErr result (λ error. error ≢ PlanError.Memory
        → time_refusal (model_chain model.now) model.now.scale bits time ≡ Some error) }
{
    let greatest = greatest_exit_rate(model);
    let load = time_load(model, greatest, time);
    let last = last_layer(&load, bits, model.n())?;
    let frame = uniformised_frame(alloc, model, sets, greatest.max(1))?;
    Ok(plan_of_load(alloc, frame, &load, last, bits)?)
}

// The number of jumps that are expected within the time, at the greatest rate at which a state is
// left.
fn time_load(model: &Model, greatest: u64, time: Decimal) -> Load
    requires value { greatest ≡ greatest_exit_rate (model_chain model.now) }
    requires bound { greatest < 2 ^ 63 }
    ensures { result ≡ time_load (model_chain model.now) model.now.scale time.c time.x }
{
    let jumps = u128::from(greatest) * u128::from(time.c);
    Load::new(jumps, 10u128.pow(model.scale() + time.x))
}
