// Runs that end as soon as each state lies on one side of a threshold.

ghost use Rattle.std.specs.Prelude.{◌≡◌, ◌+◌, ◌*◌, ◌≤◌, ◌||◌, length, nat_le, nat_lt};
ghost use Rattle.step_core.specs.SoundPlan.{IsSoundPlan};

use super::gates::{Drawn, Greatest, all_unsealed};
use super::line::{short_line, single_step};
use super::reads;
use crate::{Enough, Stopped, run, run_until};
use bound_grid::Board;
use outside::{Gate, OpenGate};
use round_out::ONE;
use std::alloc::{AllocError, Global};
use std::sync::atomic::{AtomicU64, Ordering};
use std::test::Fail;
use std::thread::Threads;
use step_core::{Bracket, Plan, Watch};
use window_engine::window_brackets;

// The printed units: 12 decimals.
const UNITS: u128 = 1_000_000_000_000;

// A bracket is narrow enough where it tells whether the threshold is reached.
#[derive(Drop)]
struct Threshold {
    at: u64,
}

impl Enough for Threshold {
    ghost is_enough = { λ threshold bracket. nat_le threshold.at bracket.lower || nat_lt bracket.upper threshold.at };

    fn enough(&self, bracket: Bracket) -> bool {
        self.at <= bracket.lower || bracket.upper < self.at
    }
}

// Whether both brackets are narrow enough, and tell the same.
fn tell_alike(threshold: &Threshold, one: Bracket, other: Bracket) -> bool {
    threshold.enough(one)
        && threshold.enough(other)
        && (threshold.at <= one.lower) == (threshold.at <= other.lower)
}

fn encloses(outer: Bracket, inner: Bracket) -> bool {
    outer.lower <= inner.lower && inner.upper <= outer.upper
}

// Whether the brackets of all states enclose those that one thread computes, and tell the same.
fn stand_for(threshold: &Threshold, brackets: &[Bracket], finals: &[Bracket]) -> bool {
    let mut alike = brackets.len() == finals.len();
    for (bracket, last) in brackets.iter().zip(finals) {
        alike = alike && encloses(*bracket, *last) && tell_alike(threshold, *bracket, *last);
    }
    alike
}

// The bracket as two numbers of 12 decimals, rounded out.
fn printed(bracket: &Bracket) -> (u128, u128) {
    let lower = u128::from(bracket.lower) * UNITS / u128::from(ONE);
    let upper = (u128::from(bracket.upper) * UNITS).div_ceil(u128::from(ONE));
    (lower, upper)
}

// The first state jumps once within the time 1 with the chance 0.3679, and at all with 0.6321.
#[test]
fn a_run_ends_once_all_is_decided(rt: HostRuntime) -> Result<(), Fail> {
    let alloc = rt.alloc();
    let plan = single_step(alloc)?;
    let finals = window_brackets(alloc, &plan)?;
    let (board, pass) = Board::open(alloc, plan)?;
    let gate = Greatest {
        layer: AtomicU64::new(0),
    };
    let tenth = Threshold { at: ONE / 10 };
    let watch = Watch { state: 0, count: 1 };
    let end = run_until(&rt, alloc, &board, pass, 1, watch, &gate, &tenth)?;
    assert!(&rt; gate.layer.load(Ordering::SeqCst) <= 2);
    assert!(&rt; stand_for(&tenth, &end.brackets, &finals));
    let [first, second] = end.brackets.as_slice() else {
        return Err(Fail::from("not two brackets"));
    };
    assert_eq!(&rt; printed(first), (367_879_441_171, 632_120_559_760));
    assert_eq!(&rt; printed(second), (UNITS, UNITS));
    assert_eq!(&rt; end.watched.as_slice(), &end.brackets[..1]);
    Ok(())
}

#[test]
fn a_whole_run_goes_on_where_another_ended(rt: HostRuntime) -> Result<(), Fail> {
    let alloc = rt.alloc();
    let plan = single_step(alloc)?;
    let finals = window_brackets(alloc, &plan)?;
    let (board, pass) = Board::open(alloc, plan)?;
    let gate = Greatest {
        layer: AtomicU64::new(0),
    };
    let tenth = Threshold { at: ONE / 10 };
    let watch = Watch { state: 0, count: 0 };
    let Stopped {
        pass,
        brackets: _,
        watched: _,
    } = run_until(&rt, alloc, &board, pass, 1, watch, &gate, &tenth)?;
    assert!(&rt; gate.layer.load(Ordering::SeqCst) <= 2);
    let mut whole = run(&rt, alloc, &board, pass, 2, watch, &OpenGate)?;
    assert!(&rt; reads(alloc, &board, &mut whole.pass, &finals)?);
    Ok(())
}

// The threshold lies in the final bracket of the state before the last.
#[test]
fn a_run_goes_on_where_a_state_stays_open(rt: HostRuntime) -> Result<(), Fail> {
    let alloc = rt.alloc();
    let plan = short_line(alloc)?;
    let finals = window_brackets(alloc, &plan)?;
    let open = finals[198];
    assert!(&rt; open.lower < open.upper);
    let (board, pass) = Board::open(alloc, plan)?;
    let inside = Threshold { at: open.upper };
    let watch = Watch { state: 0, count: 0 };
    let mut end = run_until(&rt, alloc, &board, pass, 2, watch, &OpenGate, &inside)?;
    assert_eq!(&rt; end.brackets.as_slice(), finals.as_slice());
    assert_eq!(&rt; all_unsealed(&board, &mut end.pass), 0);
    Ok(())
}

// Whether a run of the plan that may end early tells of each state what one thread does.
fn tells_as_one_thread<R: Threads + Sync, G: Gate>(
    rt: &R,
    alloc: Global,
    plan: Plan,
    workers: u32,
    gate: &G,
    threshold: &Threshold,
) -> Result<bool, AllocError>
    requires sound { IsSoundPlan plan }
    requires cells { (plan.layers + 1) * length plan.frame.rows ≤ 8388608 }
    requires states { length plan.frame.rows ≡ 200 }
    requires some { 1 ≤ workers }
    requires few { workers ≤ 64 }
{
    let finals = window_brackets(alloc, &plan)?;
    let (board, pass) = Board::open(alloc, plan)?;
    let watch = Watch { state: 0, count: 1 };
    let end = run_until(rt, alloc, &board, pass, workers, watch, gate, threshold)?;
    Ok(stand_for(threshold, &end.brackets, &finals))
}

// Only the last two states reach the goal within the time 1 more often than not.
#[test]
fn a_thousand_early_ends_decide_alike(rt: HostRuntime) -> Result<(), Fail> {
    let alloc = rt.alloc();
    let gate = Drawn {
        state: AtomicU64::new(1),
    };
    let half = Threshold { at: ONE / 2 };
    for _ in 0..1000 {
        assert!(&rt; tells_as_one_thread(&rt, alloc, short_line(alloc)?, 4, &gate, &half)?);
    }
    Ok(())
}
