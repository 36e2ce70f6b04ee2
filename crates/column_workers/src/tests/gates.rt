// Gates that choose the order of steps.

ghost use Rattle.std.specs.Prelude.{◌≤◌, ◌≡◌};
ghost use Rattle.bound_grid.specs.Passes.{IsPassOf};
ghost use Rattle.step_core.specs.SoundPlan.{IsSoundPlan};

use super::held::Held;
use bound_grid::{Board, Pass};
use outside::Gate;
use std::sync::atomic::{AtomicU64, Ordering};
use std::sync::{Mutex, Wait};

// A gate gives up after so many looks.
const LOOKS: u32 = 100_000_000;

// The last layer of the line.
const LAST: u32 = 130;

// The last layer of the single step.
const LAST_OF_STEP: u32 = 32;

// Whether the count came to `wanted`.
fn comes_to(count: &AtomicU64, wanted: u64) -> bool {
    for _ in 0..LOOKS {
        if count.load(Ordering::SeqCst) == wanted {
            return true;
        }
    }
    false
}

// How many seals of a layer the pass finds unset.
fn unsealed(board: &Board, pass: &mut Pass, k: u32) -> u64
    requires pass { IsPassOf board.now pass.old }
    requires layer { k ≤ board.now.plan.layers }
    ensures { IsPassOf board.now pass.new }
{
    let mut open = 0u64;
    for b in 0..board.blocks() {
        if !board.sealed(pass, k, b) {
            open = open.wrapping_add(1);
        }
    }
    open
}

/// How many seals of all layers the pass finds unset.
pub(super) fn all_unsealed(board: &Board, pass: &mut Pass) -> u64
    requires sound { IsSoundPlan board.now.plan }
    requires pass { IsPassOf board.now pass.old }
{
    let mut open = 0u64;
    let layers = board.plan().layers;
    for k in 0..layers + 1 {
        open = open.wrapping_add(unsealed(board, pass, k));
    }
    open
}

impl<'a> Held<'a> {
    // How many seals of a layer the pass finds unset, where there is such a layer.
    fn unsealed(&mut self, k: u32) -> u64 {
        if k <= self.board.plan().layers {
            unsealed(self.board, &mut self.pass, k)
        } else {
            0
        }
    }
}

/// Holds each of two workers at its first pause until the other is there, and counts those that
/// saw the other.
#[derive(Drop)]
pub(super) struct Meeting {
    pub(super) here: AtomicU64,
    pub(super) met: AtomicU64,
}

impl Gate for Meeting {
    fn pause(&self, _worker: u32, layer: u32) {
        if layer == 1 {
            self.here.fetch_add(1, Ordering::SeqCst);
            if comes_to(&self.here, 2) {
                self.met.fetch_add(1, Ordering::SeqCst);
            }
        }
    }
}

/// Holds worker 0 at its first pause until worker 1 has paused at the last layer of the single step,
/// and counts whether it saw that.
#[derive(Drop)]
pub(super) struct Alone {
    pub(super) last: AtomicU64,
    pub(super) seen: AtomicU64,
}

impl Gate for Alone {
    fn pause(&self, worker: u32, layer: u32) {
        if worker == 0 && layer == 1 && comes_to(&self.last, 1) {
            self.seen.fetch_add(1, Ordering::SeqCst);
        }
        if worker == 1 && layer == LAST_OF_STEP {
            self.last.fetch_add(1, Ordering::SeqCst);
        }
    }
}

/// Holds worker 0 at its first pause until worker 1 has paused at layer 2, and worker 1 there until
/// worker 0 has paused at the last layer. So worker 1 is late with a block that it has drawn. Counts
/// those that saw what they were held for.
///
/// At each later pause of worker 0 it looks at the seals of the layer before.
#[derive(Drop)]
pub(super) struct Late<'a, R: Wait> {
    pub(super) rt: &'a R,
    pub(super) held: Mutex<Held<'a>>,
    pub(super) unsealed: AtomicU64,
    pub(super) second: AtomicU64,
    pub(super) last: AtomicU64,
    pub(super) seen: AtomicU64,
}

impl<'a, R: Wait + Sync> Gate for Late<'a, R> {
    fn pause(&self, worker: u32, layer: u32) {
        if worker == 0 && layer == 1 && comes_to(&self.second, 1) {
            self.seen.fetch_add(1, Ordering::SeqCst);
        }
        if worker == 0 && layer > 1 {
            let unsealed = self.held.lock(self.rt).unsealed(layer - 1);
            self.unsealed.fetch_add(unsealed, Ordering::SeqCst);
        }
        if worker == 0 && layer == LAST {
            self.last.fetch_add(1, Ordering::SeqCst);
        }
        if worker == 1 && layer == 2 {
            self.second.fetch_add(1, Ordering::SeqCst);
            if comes_to(&self.last, 1) {
                self.seen.fetch_add(1, Ordering::SeqCst);
            }
        }
    }
}

/// Holds the only worker at its first pause until the reader has paused before its second bracket,
/// and the reader there until the worker has paused at the last layer. Counts those that saw what
/// they were held for.
#[derive(Drop)]
pub(super) struct Watching {
    pub(super) second: AtomicU64,
    pub(super) last: AtomicU64,
    pub(super) seen: AtomicU64,
}

impl Gate for Watching {
    fn pause(&self, worker: u32, layer: u32) {
        if worker == 0 && layer == 1 && comes_to(&self.second, 1) {
            self.seen.fetch_add(1, Ordering::SeqCst);
        }
        if worker == 0 && layer == LAST {
            self.last.fetch_add(1, Ordering::SeqCst);
        }
        if worker == 1 && layer == 1 {
            self.second.fetch_add(1, Ordering::SeqCst);
            if comes_to(&self.last, 1) {
                self.seen.fetch_add(1, Ordering::SeqCst);
            }
        }
    }
}

/// Holds each worker at each pause for a while of its own: up to 63 looks at a number that is drawn
/// anew for each pause.
#[derive(Drop)]
pub(super) struct Drawn {
    pub(super) state: AtomicU64,
}

impl Gate for Drawn {
    fn pause(&self, _worker: u32, _layer: u32) {
        let drawn = self
            .state
            .fetch_add(0x9E37_79B9_7F4A_7C15, Ordering::SeqCst);
        for _ in 0..drawn >> 58 {
            self.state.load(Ordering::SeqCst);
        }
    }
}

/// Keeps the greatest layer at which anyone paused.
#[derive(Drop)]
pub(super) struct Greatest {
    pub(super) layer: AtomicU64,
}

impl Gate for Greatest {
    fn pause(&self, _worker: u32, layer: u32) {
        self.layer.fetch_max(u64::from(layer), Ordering::SeqCst);
    }
}
