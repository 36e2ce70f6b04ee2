// What can be reached in a small frame, worked by hand.

ghost use Rattle.std.specs.Prelude.{◌≡◌, IfOk};
ghost use Rattle.step_core.specs.SoundFrame.{IsSoundFrame};

use super::can_reach;
use round_out::Entry;
use std::alloc::{AllocError, Global};
use std::test::Fail;
use step_core::{Frame, Row, Sets};

fn row(alloc: Global, den: u64, entries: &[Entry]) -> Result<Row, AllocError>
    ensures { IfOk result (λ row. row ≡ record { den = den; entries = entries.now }) }
{
    Ok(Row {
        den,
        entries: Vec::from_slice(alloc, entries)?,
    })
}

// Sets that are known exactly.
fn sets(alloc: Global, goal: &[bool], live: &[bool]) -> Result<Sets, AllocError>
    ensures { IfOk result (λ sets. sets ≡ record {
      goal_must = goal.now;
      goal_may = goal.now;
      live_must = live.now;
      live_may = live.now;
    }) }
{
    Ok(Sets {
        goal_must: Vec::from_slice(alloc, goal)?,
        goal_may: Vec::from_slice(alloc, goal)?,
        live_must: Vec::from_slice(alloc, live)?,
        live_may: Vec::from_slice(alloc, live)?,
    })
}

// The first state leads over the second to the third, which is the goal and isn't live. The fourth
// stays, or jumps to the fifth, which isn't live and would jump to the goal.
fn five_states(alloc: Global) -> Result<Frame, AllocError>
    ensures { IfOk result IsSoundFrame }
{
    let first = row(alloc, 1, &[Entry { to: 1, num: 1 }])?;
    let second = row(alloc, 1, &[Entry { to: 2, num: 1 }])?;
    let third = row(alloc, 1, &[Entry { to: 3, num: 1 }])?;
    let fourth = row(
        alloc,
        2,
        &[Entry { to: 3, num: 1 }, Entry { to: 4, num: 1 }],
    )?;
    let fifth = row(alloc, 1, &[Entry { to: 2, num: 1 }])?;
    let rows = vec![in alloc; first, second, third, fourth, fifth]?;
    let sets = sets(
        alloc,
        &[false, false, true, false, false],
        &[true, true, false, true, false],
    )?;
    Ok(Frame { rows, sets })
}

#[test]
fn live_states_lead_to_a_goal(rt: HostRuntime) -> Result<(), Fail> {
    let frame = five_states(rt.alloc())?;
    let reach = can_reach(rt.alloc(), &frame)?;
    assert_eq!(rt;
        reach.as_slice(),
        [true, true, true, false, false].as_slice()
    );
    Ok(())
}
