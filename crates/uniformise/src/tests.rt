// Plans over three states, worked by hand, and the limits of a plan.

ghost use Rattle.std.specs.Prelude.{◌≡◌, ◌≤◌, false, true, ◌∷◌, [], IfOk, length};
ghost use Rattle.step_core.specs.SoundFrame.{AreSoundSets};

use super::*;
use decimal_text::Decimal;
use model_core::{Lab, Model, Rate, Tra};
use round_out::{Entry, ONE};
use std::alloc::{AllocError, Global};
use std::test::Fail;
use step_core::{Mix, Plan, PlanError, Sets};

// In tenths: the first goes to the second with 3 and to the third with 7, the second to itself with 4, the third to the
// first with 5.
fn three_states(alloc: Global) -> Result<Model, AllocError>
    ensures { IfOk result (λ model. model.n ≡ 3) }
{
    let rates = vec![in alloc;
        Rate {
            from: 0,
            to: 1,
            rate: 3
        },
        Rate {
            from: 0,
            to: 2,
            rate: 7
        },
        Rate {
            from: 1,
            to: 1,
            rate: 4
        },
        Rate {
            from: 2,
            to: 0,
            rate: 5
        },
    ]?;
    let lab = Lab::new(Vec::new(alloc), vec![in alloc; 0, 0, 0]?);
    Model::build(alloc, Tra::new(3, 1, rates), lab, None)
}

// So many states that nothing leaves.
fn resting_states(alloc: Global, states: u32) -> Result<Model, AllocError>
    requires some { 1 ≤ states }
    requires few { states ≤ 65536 }
    ensures { IfOk result (λ model. model.n ≡ states) }
{
    let lab = Lab::new(Vec::new(alloc), vec![in alloc; 0u64; states as usize]?);
    Model::build(alloc, Tra::new(states, 0, Vec::new(alloc)), lab, None)
}

// Sets that are known exactly.
fn sets(alloc: Global, goal: &[bool], live: &[bool]) -> Result<Sets, AllocError>
    requires states { length live.now ≡ length goal.now }
    ensures { IfOk result (AreSoundSets (length goal.now)) }
{
    Ok(Sets {
        goal_must: Vec::from_slice(alloc, goal)?,
        goal_may: Vec::from_slice(alloc, goal)?,
        live_must: Vec::from_slice(alloc, live)?,
        live_may: Vec::from_slice(alloc, live)?,
    })
}

// The second of three states is the goal, and only the first is live.
fn second_from_first(alloc: Global) -> Result<Sets, AllocError>
    ensures { IfOk result (AreSoundSets 3) }
{
    sets(alloc, &[false, true, false], &[true, false, false])
}

// Whether the rows are those of the three states over 10, the greatest rate.
fn has_three_rows(plan: &Plan) -> bool {
    let rows: [&[Entry]; 3] = [
        &[Entry { to: 1, num: 3 }, Entry { to: 2, num: 7 }],
        &[Entry { to: 1, num: 10 }],
        &[Entry { to: 0, num: 5 }, Entry { to: 2, num: 5 }],
    ];
    plan.frame.rows.len() == 3
        && plan.frame.rows.iter().zip(rows).all(|(row, entries)| row.den == 10
            && row.entries.as_slice() == entries)
}

// Within a half the greatest exit rate, 1, makes a load of a half.
#[test]
fn a_time_bound_has_a_plan(rt: HostRuntime) -> Result<(), Fail> {
    let alloc = rt.alloc();
    let model = three_states(alloc)?;
    let plan = match time_plan(
        alloc,
        &model,
        second_from_first(alloc)?,
        Decimal { c: 5, x: 1 },
        8,
    ) {
        Ok(plan) => plan,
        Err(_) => return Err(Fail::from("no plan")),
    };
    assert!(rt; has_three_rows(&plan));
    assert_eq!(rt; plan.layers, 9);
    assert_eq!(rt; plan.start_upper.as_slice(), [0, ONE, 0].as_slice());
    assert_eq!(rt; plan.reach.as_slice(), [true, true, false].as_slice());
    match &plan.mix {
        Mix::Poisson(weights, bits) => {
            assert_eq!(rt; *bits, 8);
            assert_eq!(rt; weights.low.as_slice().first(), Some(&ONE));
            assert_eq!(rt; weights.high.len(), 10);
        }
        Mix::Last => assert!(rt; false, "a time bound has weights"),
    }
    Ok(())
}

// Twice the load and the bits are 16,384 jumps at the time 8188, and pass it by the least bit more.
#[test]
fn a_time_bound_past_the_limit_has_none(rt: HostRuntime) -> Result<(), Fail> {
    let alloc = rt.alloc();
    let model = three_states(alloc)?;
    let cases = [
        (Decimal { c: 8188, x: 0 }, true),
        (Decimal { c: 81881, x: 1 }, false),
    ];
    for (time, fits) in cases {
        match time_plan(alloc, &model, second_from_first(alloc)?, time, 8) {
            Ok(plan) => assert_eq!(rt; (fits, plan.layers), (true, 16_384)),
            Err(error) => assert_eq!(rt; (fits, error), (false, PlanError::TooLong)),
        }
    }
    Ok(())
}

// The third state has only itself and the first to go to, and isn't live.
#[test]
fn an_until_without_a_bound_has_a_plan(rt: HostRuntime) -> Result<(), Fail> {
    let alloc = rt.alloc();
    let model = three_states(alloc)?;
    let plan = match unbounded_plan(alloc, &model, second_from_first(alloc)?, 7) {
        Ok(plan) => plan,
        Err(_) => return Err(Fail::from("no plan")),
    };
    assert!(rt; has_three_rows(&plan));
    assert_eq!(rt; plan.layers, 7);
    assert_eq!(rt; plan.reach.as_slice(), [true, true, false].as_slice());
    assert_eq!(rt; plan.start_upper.as_slice(), [ONE, ONE, 0].as_slice());
    assert!(rt; matches!(&plan.mix, Mix::Last));
    Ok(())
}

// 512 states have 2^23 words over 0 to 16,383 jumps.
#[test]
fn a_table_past_the_limit_has_no_plan(rt: HostRuntime) -> Result<(), Fail> {
    let alloc = rt.alloc();
    let model = resting_states(alloc, 512)?;
    let none = vec![in alloc; false; 512]?;
    let greatest = unbounded_plan(alloc, &model, sets(alloc, &none, &none)?, 16_383);
    assert!(rt; greatest.is_ok());
    let larger = unbounded_plan(alloc, &model, sets(alloc, &none, &none)?, 16_384);
    assert_eq!(rt; larger.err(), Some(PlanError::TooLarge));
    Ok(())
}
