// Plans over models with rewards, worked by hand, and when there is none.

ghost use Rattle.std.specs.Prelude.{◌≡◌, ◌∷◌, [], ◌≤◌, ◌^◌, false, true, All, IfOk, length};
ghost use Rattle.step_core.specs.SoundFrame.{AreSoundSets};

use super::*;
use decimal_text::Decimal;
use model_core::{Lab, Model, Rate, Rew, Tra};
use std::alloc::{AllocError, Global};
use std::test::Fail;
use step_core::{Plan, PlanError, Sets};

mod loads;
mod plans;
mod refusals;

// Two states of which each goes to the other at its rate, and a third that nothing leaves.
fn there_and_back(alloc: Global, there: u64, back: u64, scale: u32) -> Result<Tra, AllocError>
    requires there { 1 ≤ there }
    requires back { 1 ≤ back }
    requires there_fits { there ≤ 4611686018427387904 }
    requires back_fits { back ≤ 4611686018427387904 }
    requires scale { scale ≤ 18 }
    ensures { IfOk result (λ tra. tra.n ≡ 3) }
{
    let rates = vec![in alloc;
        Rate {
            from: 0,
            to: 1,
            rate: there
        },
        Rate {
            from: 1,
            to: 0,
            rate: back
        },
    ]?;
    Ok(Tra::new(3, scale, rates))
}

// The chain without labels, and with these rewards.
fn earning(alloc: Global, tra: Tra, scale: u32, rewards: [u64; 3]) -> Result<Model, AllocError>
    requires states { tra.n ≡ 3 }
    requires scale { scale ≤ 18 }
    requires fit { All (λ reward. reward ≤ 9223372036854775807) rewards }
    ensures { IfOk result (λ model. model.n ≡ 3) }
{
    let lab = Lab::new(Vec::new(alloc), vec![in alloc; 0, 0, 0]?);
    let rew = Rew::new(scale, Vec::from_slice(alloc, &rewards)?);
    Model::build(alloc, tra, lab, Some(rew))
}

// The second of three states is the goal, and only the first is live.
fn second_from_first(alloc: Global) -> Result<Sets, AllocError>
    ensures { IfOk result (AreSoundSets 3) }
{
    let goal = &[false, true, false];
    let live = &[true, false, false];
    Ok(Sets {
        goal_must: Vec::from_slice(alloc, goal)?,
        goal_may: Vec::from_slice(alloc, goal)?,
        live_must: Vec::from_slice(alloc, live)?,
        live_may: Vec::from_slice(alloc, live)?,
    })
}

// The plan of that until over the model within the reward, with brackets of 8 bits.
fn plan_within(alloc: Global, model: &Model, reward: Decimal) -> Result<Plan, PlanError>
    requires { model.now.n ≡ 3 }
{
    reward_plan(alloc, model, second_from_first(alloc)?, reward, 8)
}
