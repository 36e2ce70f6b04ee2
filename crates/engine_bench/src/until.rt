// The until of a label within a time, from all states.

ghost use Rattle.std.specs.Prelude.{◌<◌, IfSome, IfOk, length};
ghost use Rattle.step_core.specs.SoundFrame.{AreSoundSets};
ghost use Rattle.step_core.specs.SoundPlan.{IsSoundPlan};

use decimal_text::{Decimal, read};
use lab_reader::read_lab;
use model_core::Model;
use std::alloc::{AllocError, Global};
use step_core::{Plan, Sets};
use tra_reader::read_tra;
use uniformise::time_plan;

// The bits of the horizon.
const BITS: u32 = 30;

/// The plan of reaching the label within the time, where the files stand for a model, it has the
/// label, and there is a plan.
pub(crate) fn plan_of(
    alloc: Global,
    tra: &[u8],
    lab: &[u8],
    label: &[u8],
    time: &[u8],
) -> Option<Plan>
    ensures sound { IfSome result IsSoundPlan }
{
    let Ok(tra) = read_tra(alloc, tra) else {
        return None;
    };
    let Ok(lab) = read_lab(alloc, lab, tra.n()) else {
        return None;
    };
    let Ok(model) = Model::build(alloc, tra, lab, None) else {
        return None;
    };
    let place = place_of(&model, label)?;
    let Ok(time) = read(time) else {
        return None;
    };
    within(alloc, &model, place, time)
}

// The plan of reaching the label of this place within the time.
fn within(alloc: Global, model: &Model, label: u32, time: Decimal) -> Option<Plan>
    requires label { label < length model.now.names }
    ensures sound { IfSome result IsSoundPlan }
{
    let Ok(sets) = sets(alloc, model, label) else {
        return None;
    };
    match time_plan(alloc, model, sets, time, BITS) {
        Ok(plan) => Some(plan),
        Err(_) => None,
    }
}

// The place of the label among those of the model.
fn place_of(model: &Model, label: &[u8]) -> Option<u32>
    ensures { IfSome result (λ place. place < length model.now.names) }
{
    let place = model
        .labels()
        .iter()
        .position(|name| name.bytes() == label)?;
    Some(place as u32)
}

// Each state is live, and those with the label are the goal.
fn sets(alloc: Global, model: &Model, label: u32) -> Result<Sets, AllocError>
    requires { label < length model.now.names }
    ensures { IfOk result (AreSoundSets model.now.n) }
{
    let mut goal = Vec::with_capacity(alloc, model.n() as usize)?;
    for s in 0..model.n() {
        goal.push(model.has(s, label))?;
    }
    let live = vec![in alloc; true; model.n() as usize]?;
    Ok(Sets {
        goal_must: Vec::from_slice(alloc, &goal)?,
        goal_may: goal,
        live_must: Vec::from_slice(alloc, &live)?,
        live_may: live,
    })
}
