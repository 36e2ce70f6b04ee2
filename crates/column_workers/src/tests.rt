// Runs of workers and a reader on a line of 200 states in 4 blocks, with 131 layers.

mod early;
mod gates;
mod held;
mod line;

ghost use Rattle.std.specs.Prelude.{◌≡◌, ◌+◌, ◌*◌, ◌≤◌, length};
ghost use Rattle.bound_grid.specs.Passes.{IsPassOf};
ghost use Rattle.step_core.specs.SoundPlan.{IsSoundPlan};

use super::run;
use bound_grid::{Board, Pass};
use gates::{Alone, Drawn, Late, Meeting, Watching, all_unsealed};
use held::Held;
use line::{line, short_line, single_step};
use outside::{Gate, OpenGate};
use reader_pass::read_states;
use std::alloc::{AllocError, Global};
use std::sync::Mutex;
use std::sync::atomic::{AtomicU64, Ordering};
use std::test::Fail;
use std::thread::Threads;
use step_core::{Bracket, Plan, Watch};
use window_engine::window_brackets;

fn width(bracket: &Bracket) -> u64 {
    bracket.upper.saturating_sub(bracket.lower)
}

#[test]
fn two_workers_run_side_by_side(rt: HostRuntime) -> Result<(), Fail> {
    let alloc = rt.alloc();
    let (board, pass) = Board::open(alloc, line(alloc)?)?;
    let gate = Meeting {
        here: AtomicU64::new(0),
        met: AtomicU64::new(0),
    };
    let mut end = run(
        &rt,
        alloc,
        &board,
        pass,
        2,
        Watch { state: 0, count: 0 },
        &gate,
    )?;
    assert_eq!(&rt; gate.met.load(Ordering::SeqCst), 2);
    assert_eq!(&rt; all_unsealed(&board, &mut end.pass), 0);
    Ok(())
}

// One worker tightens every block while the other hasn't drawn yet: no block waits for a worker of
// its own.
#[test]
fn blocks_are_drawn_by_tickets(rt: HostRuntime) -> Result<(), Fail> {
    let alloc = rt.alloc();
    let (board, pass) = Board::open(alloc, single_step(alloc)?)?;
    let gate = Alone {
        last: AtomicU64::new(0),
        seen: AtomicU64::new(0),
    };
    let mut end = run(
        &rt,
        alloc,
        &board,
        pass,
        2,
        Watch { state: 0, count: 0 },
        &gate,
    )?;
    assert_eq!(&rt; gate.seen.load(Ordering::SeqCst), 1);
    assert_eq!(&rt; all_unsealed(&board, &mut end.pass), 0);
    Ok(())
}

#[test]
fn a_late_worker_is_helped(rt: HostRuntime) -> Result<(), Fail> {
    let alloc = rt.alloc();
    let (board, mut pass) = Board::open(alloc, line(alloc)?)?;
    let other = board.split(&mut pass);
    let gate = Late {
        rt: &rt,
        held: Mutex::new(Held {
            board: &board,
            pass: other,
        }),
        unsealed: AtomicU64::new(0),
        second: AtomicU64::new(0),
        last: AtomicU64::new(0),
        seen: AtomicU64::new(0),
    };
    let _end = run(
        &rt,
        alloc,
        &board,
        pass,
        2,
        Watch { state: 0, count: 0 },
        &gate,
    )?;
    assert_eq!(&rt; gate.unsealed.load(Ordering::SeqCst), 0);
    assert_eq!(&rt; gate.seen.load(Ordering::SeqCst), 2);
    Ok(())
}

#[test]
fn a_bracket_beside_the_workers_is_fresh(rt: HostRuntime) -> Result<(), Fail> {
    let alloc = rt.alloc();
    let (board, pass) = Board::open(alloc, line(alloc)?)?;
    let gate = Watching {
        second: AtomicU64::new(0),
        last: AtomicU64::new(0),
        seen: AtomicU64::new(0),
    };
    let end = run(
        &rt,
        alloc,
        &board,
        pass,
        1,
        Watch { state: 0, count: 3 },
        &gate,
    )?;
    assert_eq!(&rt; gate.seen.load(Ordering::SeqCst), 2);
    let [first, second, last] = end.watched.as_slice() else {
        return Err(Fail::from("not three brackets"));
    };
    assert!(&rt; width(second) < width(first));
    assert!(&rt; width(last) <= width(second));
    Ok(())
}

// Whether the pass reads these brackets of the states.
fn reads(
    alloc: Global,
    board: &Board,
    pass: &mut Pass,
    brackets: &[Bracket],
) -> Result<bool, AllocError>
    requires sound { IsSoundPlan board.now.plan }
    requires pass { IsPassOf board.now pass.old }
{
    let plan = board.plan();
    let mut found = Vec::with_capacity(alloc, plan.frame.rows.len())?;
    read_states(board, pass, &mut found);
    Ok(found.as_slice() == brackets)
}

// Whether a run of the plan by so many workers ends with the brackets that one thread computes.
fn ends_as_one_thread<R: Threads + Sync, G: Gate>(
    rt: &R,
    alloc: Global,
    plan: Plan,
    workers: u32,
    gate: &G,
) -> Result<bool, AllocError>
    requires sound { IsSoundPlan plan }
    requires cells { (plan.layers + 1) * length plan.frame.rows ≤ 8388608 }
    requires states { length plan.frame.rows ≡ 200 }
    requires some { 1 ≤ workers }
    requires few { workers ≤ 64 }
{
    let brackets = window_brackets(alloc, &plan)?;
    let (board, pass) = Board::open(alloc, plan)?;
    let watch = Watch { state: 0, count: 1 };
    let mut end = run(rt, alloc, &board, pass, workers, watch, gate)?;
    let watched = end.watched.as_slice() == &brackets[..1];
    Ok(watched && reads(alloc, &board, &mut end.pass, &brackets)?)
}

#[test]
fn brackets_are_those_of_one_thread(rt: HostRuntime) -> Result<(), Fail> {
    let alloc = rt.alloc();
    assert!(&rt; ends_as_one_thread(&rt, alloc, line(alloc)?, 1, &OpenGate)?);
    assert!(&rt; ends_as_one_thread(&rt, alloc, line(alloc)?, 2, &OpenGate)?);
    assert!(&rt; ends_as_one_thread(&rt, alloc, line(alloc)?, 64, &OpenGate)?);
    Ok(())
}

#[test]
fn a_thousand_runs_with_drawn_pauses_end_alike(rt: HostRuntime) -> Result<(), Fail> {
    let alloc = rt.alloc();
    let gate = Drawn {
        state: AtomicU64::new(1),
    };
    for _ in 0..1000 {
        assert!(&rt; ends_as_one_thread(&rt, alloc, short_line(alloc)?, 4, &gate)?);
    }
    Ok(())
}

#[test]
fn as_many_brackets_as_wanted(rt: HostRuntime) -> Result<(), Fail> {
    let alloc = rt.alloc();
    for count in [0u32, 1] {
        let (board, pass) = Board::open(alloc, line(alloc)?)?;
        let end = run(
            &rt,
            alloc,
            &board,
            pass,
            2,
            Watch { state: 150, count },
            &OpenGate,
        )?;
        assert_eq!(&rt; end.watched.len(), count as usize);
    }
    Ok(())
}
