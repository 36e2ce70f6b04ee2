// The plan of an until with a bound on the reward.
ghost use Rattle.std.specs.Prelude.{◌≡◌, ◌≢◌, ◌≤◌, Some, None, IfOk, IfErr};
ghost use Rattle.model_core.specs.Model.{labelled_chain};
ghost use Rattle.step_core.specs.SoundFrame.{AreSoundSets};
ghost use Rattle.reward_dual.specs.RewardPlan.{IsRewardPlan};
ghost use Rattle.reward_dual.specs.RewardRefusal.{reward_refusal};

use crate::deciding::fastest_state;
use crate::dual_rows::dual_frame;
use crate::lowest_terms::lowest_load;
use crate::refusals::{first_past_range, first_without_reward};
use decimal_text::Decimal;
use model_core::Model;
use std::alloc::Global;
use step_core::{Plan, PlanError, Sets};
use uniformise::{last_layer, plan_of_load};

/// The plan of reaching the goal through live states before more than the reward is gathered, over
/// the dual chain, whose clock is the reward (Baier, Haverkort, Hermanns, Katoen, On the logical
/// characterisation of performability properties, ICALP 2000).
///
/// `NoRewards` comes where the model has no rewards, else `ZeroReward` where a state earns nothing,
/// with the first such state, else `RewardRange` where the divisor of a row has more than 63 bits,
/// with the first such state, else `BoundRange` where the numbers of the load in lowest terms don't
/// fit, and then `TooLong` and `TooLarge` as for a bound on the time; all before any memory is taken.
/// States are counted from 0.
pub fn reward_plan(
    alloc: Global,
    model: &Model,
    sets: Sets,
    reward: Decimal,
    bits: u32,
) -> Result<Plan, PlanError>
    requires sets { AreSoundSets model.now.n sets }
    requires some_bits { 8 ≤ bits }
    requires few_bits { bits ≤ 48 }
    ensures plan { IfOk result (IsRewardPlan (labelled_chain model.now) bits reward sets) }
    ensures accepted { IfOk result (λ _. reward_refusal (labelled_chain model.now) bits reward ≡ None) }
    ensures refused { IfErr result (λ error. error ≢ PlanError.Memory
        → reward_refusal (labelled_chain model.now) bits reward ≡ Some error) }
{
    let states = model.n();
    if !model.has_rewards() {
        return Err(PlanError::NoRewards);
    }
    if let Some(s) = first_without_reward(model) {
        return Err(PlanError::ZeroReward(s));
    }
    let fastest = fastest_state(model);
    if let Some(s) = first_past_range(model, fastest.exit) {
        return Err(PlanError::RewardRange(s));
    }
    let places = model.scale() + reward.x;
    let decimals = model.reward_scale();
    let Some(load) = lowest_load(fastest.exit, fastest.reward, reward.c, decimals, places) else {
        return Err(PlanError::BoundRange);
    };
    let last = last_layer(&load, bits, states)?;
    let frame = dual_frame(alloc, model, sets, fastest)?;
    Ok(plan_of_load(alloc, frame, &load, last, bits)?)
}
