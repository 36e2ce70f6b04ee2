// The plans of a line of states, and of a single step.

ghost use Rattle.std.specs.Prelude.{◌≡◌, ◌+◌, ◌*◌, ◌≤◌, IfOk, IfSome, length};
ghost use Rattle.step_core.specs.SoundFrame.{AreSoundSets};
ghost use Rattle.step_core.specs.SoundPlan.{IsSoundPlan};

use decimal_text::Decimal;
use lab_reader::read_lab;
use model_core::Model;
use std::alloc::{AllocError, Global};
use std::test::Fail;
use step_core::{Plan, Sets};
use tra_reader::read_tra;
use uniformise::time_plan;

/// The plan of reaching the last of 200 states within the time 50, where each other state goes to
/// the next with the rate 1.
pub(super) fn line(alloc: Global) -> Result<Plan, Fail>
    ensures sound { IfOk result IsSoundPlan }
    ensures cells { IfOk result (λ plan. (plan.layers + 1) * length plan.frame.rows ≤ 8388608) }
    ensures states { IfOk result (λ plan. length plan.frame.rows ≡ 200) }
    ensures layers { IfOk result (λ plan. plan.layers ≡ 130) }
{
    line_within(alloc, Decimal { c: 50, x: 0 }, 30, 130)
}

/// The same within the time 1, looked at to 8 bits: a plan of 11 layers.
pub(super) fn short_line(alloc: Global) -> Result<Plan, Fail>
    ensures sound { IfOk result IsSoundPlan }
    ensures cells { IfOk result (λ plan. (plan.layers + 1) * length plan.frame.rows ≤ 8388608) }
    ensures states { IfOk result (λ plan. length plan.frame.rows ≡ 200) }
{
    line_within(alloc, Decimal { c: 1, x: 0 }, 8, 10)
}

// The plan within the time, which has so many layers.
fn line_within(alloc: Global, time: Decimal, bits: u32, layers: u32) -> Result<Plan, Fail>
    requires some_bits { 8 ≤ bits }
    requires few_bits { bits ≤ 48 }
    requires few_layers { layers ≤ 16384 }
    ensures sound { IfOk result IsSoundPlan }
    ensures cells { IfOk result (λ plan. (plan.layers + 1) * length plan.frame.rows ≤ 8388608) }
    ensures states { IfOk result (λ plan. length plan.frame.rows ≡ 200) }
    ensures layers { IfOk result (λ plan. plan.layers ≡ layers) }
{
    let transitions = transitions(alloc)?;
    match plan_of(alloc, transitions.as_bytes(), time, bits) {
        Some(plan) if plan.frame.rows.len() == 200 && plan.layers == layers => Ok(plan),
        _ => Err(Fail::from("no plan of the line")),
    }
}

/// The plan of reaching the second of two states within the time 1, where the first goes to it with
/// the rate 1: 32 layers of one block.
pub(super) fn single_step(alloc: Global) -> Result<Plan, Fail>
    ensures sound { IfOk result IsSoundPlan }
    ensures cells { IfOk result (λ plan. (plan.layers + 1) * length plan.frame.rows ≤ 8388608) }
    ensures states { IfOk result (λ plan. length plan.frame.rows ≡ 2) }
    ensures layers { IfOk result (λ plan. plan.layers ≡ 32) }
{
    let transitions = b"STATES 2\nTRANSITIONS 1\n1 2 1\n";
    match plan_of(alloc, transitions, Decimal { c: 1, x: 0 }, 30) {
        Some(plan) if plan.frame.rows.len() == 2 && plan.layers == 32 => Ok(plan),
        _ => Err(Fail::from("no plan of the single step")),
    }
}

fn transitions(alloc: Global) -> Result<String, AllocError> {
    let mut text = format!(in alloc; "STATES 200\nTRANSITIONS 199\n")?;
    for from in 1..200u32 {
        let transition = format!(in alloc; "{from} {} 1\n", from + 1)?;
        text.push_str(transition.as_str())?;
    }
    Ok(text)
}

fn plan_of(alloc: Global, transitions: &[u8], time: Decimal, bits: u32) -> Option<Plan>
    requires some_bits { 8 ≤ bits }
    requires few_bits { bits ≤ 48 }
    ensures { IfSome result IsSoundPlan }
{
    let tra = read_tra(alloc, transitions).ok()?;
    let lab = read_lab(alloc, b"#DECLARATION\n#END\n", tra.n()).ok()?;
    let model = Model::build(alloc, tra, lab, None).ok()?;
    let sets = sets(alloc, &model).ok()?;
    time_plan(alloc, &model, sets, time, bits).ok()
}

// Each state is live, and the last is the goal.
fn sets(alloc: Global, model: &Model) -> Result<Sets, AllocError>
    ensures { IfOk result (AreSoundSets model.now.n) }
{
    let mut goal = Vec::with_capacity(alloc, model.n() as usize)?;
    for s in 0..model.n() {
        goal.push(s + 1 == model.n())?;
    }
    let live = vec![in alloc; true; model.n() as usize]?;
    known(alloc, &goal, &live)
}

// Sets that are known exactly.
fn known(alloc: Global, goal: &[bool], live: &[bool]) -> Result<Sets, AllocError>
    ensures { IfOk result (λ sets. sets ≡ record {
      goal_must = goal.now;
      goal_may = goal.now;
      live_must = live.now;
      live_may = live.now;
    }) }
{
    Ok(Sets {
        goal_must: Vec::from_slice(alloc, goal)?,
        goal_may: Vec::from_slice(alloc, goal)?,
        live_must: Vec::from_slice(alloc, live)?,
        live_may: Vec::from_slice(alloc, live)?,
    })
}
