// Runs that end as soon as each bracket decides the threshold.
use super::*;
use std::sync::atomic::{AtomicU32, Ordering};

// As many workers and watched brackets, where a run may end early.
fn early(workers: u32, watch: u32) -> Options {
    Options {
        workers,
        bits: 30,
        jumps: 512,
        watch,
        state: 0,
        until_decided: true,
    }
}

/// Keeps the greatest layer before which a worker paused.
#[derive(Drop)]
struct Greatest {
    layer: AtomicU32,
}

impl Gate for Greatest {
    fn pause(&self, _worker: u32, layer: u32) {
        self.layer.fetch_max(layer, Ordering::SeqCst);
    }
}

// Layer 1 is known when layer 2 is drawn, and decides: from state 1 the goal is entered by one jump, and at least one comes with
// the probability 1 - 1/e.
#[test]
fn one_layer_decides(rt: HostRuntime) -> Result<(), Fail> {
    let alloc = rt.alloc();
    let gate = Greatest {
        layer: AtomicU32::new(0),
    };
    let line = b"P{>=0.1}[tt U[0,1] a]";
    let answer = ask_gated(&rt, alloc, STEP, line, early(1, 0), &gate)??;
    let (verdicts, shown) = opened(answer)?;
    assert_eq!(&rt; verdicts.as_slice(), [SATISFIED, SATISFIED].as_slice());
    assert_eq!(&rt; shown.horizon, Some(32));
    let first = Printed {
        low: 367_879_441_171,
        high: 632_120_559_760,
    };
    assert_eq!(&rt; shown.states.as_slice(), [first, ONE].as_slice());
    assert!(&rt; gate.layer.load(Ordering::SeqCst) <= 2);
    Ok(())
}

// The threshold lies in the bracket of state 1 to the end, so all brackets are those of the whole run.
#[test]
fn an_open_state_has_all_computed(rt: HostRuntime) -> Result<(), Fail> {
    let alloc = rt.alloc();
    let line = b"P{>=0.632120559}[tt U[0,1] a]";
    for workers in 1..4u32 {
        let answer = ask_gated(&rt, alloc, STEP, line, early(workers, 0), &OpenGate)??;
        let (verdicts, shown) = opened(answer)?;
        assert_eq!(&rt; verdicts.as_slice(), [UNDECIDED, SATISFIED].as_slice());
        let first = Printed {
            low: 632_120_558_828,
            high: 632_120_559_760,
        };
        assert_eq!(&rt; shown.states.as_slice(), [first, ONE].as_slice());
    }
    Ok(())
}

// The last bracket that is watched is the one of the state's line, also where it is an early one.
#[test]
fn an_early_end_is_watched(rt: HostRuntime) -> Result<(), Fail> {
    let alloc = rt.alloc();
    let line = b"P{>=0.1}[tt U[0,1] a]";
    let answer = ask_gated(&rt, alloc, STEP, line, early(2, 3), &OpenGate)??;
    let (_, shown) = opened(answer)?;
    assert_eq!(&rt; shown.watched.len(), 3);
    assert_eq!(&rt; shown.watched.last(), shown.states.first());
    Ok(())
}

// An operator inside another one may end early as well: what it says is the same.
#[test]
fn inner_operators_end_early_too(rt: HostRuntime) -> Result<(), Fail> {
    let alloc = rt.alloc();
    let line = b"!P{>=0.64}[tt U[0,1] P{>=0.1}[tt U[0,1] a]]";
    for workers in 1..4u32 {
        let answer = ask_gated(&rt, alloc, STEP, line, early(workers, 0), &OpenGate)??;
        assert_eq!(&rt; answer.verdicts.as_slice(), [REFUTED, REFUTED].as_slice());
    }
    Ok(())
}
