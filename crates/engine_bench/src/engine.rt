// The engines.

ghost use Rattle.std.specs.Prelude.{◌+◌, ◌*◌, ◌<◌, ◌≤◌, length};
ghost use Rattle.bound_grid.specs.Passes.{IsPassOf};
ghost use Rattle.step_core.specs.SoundPlan.{IsSoundPlan};

use crate::held::HoldsSecond;
use bound_grid::{Board, Pass};
use column_workers::run;
use outside::{Gate, OpenGate};
use std::alloc::{AllocError, Global};
use std::thread::Threads;
use step_core::{Plan, Watch, plain_tables};
use tighten_step::tighten_block;
use window_engine::window_brackets;

// The most cells of a board.
const MOST_CELLS: u64 = 1 << 23;

/// What goes through the layers of a plan.
#[derive(Clone, Copy, Debug, PartialEq, Eq)]
pub(crate) enum Engine {
    /// Nothing: what reading the model and making the plan take.
    Plan,
    /// The plain program, which holds both tables.
    Tables,
    /// Two layers, and the brackets of all states.
    Window,
    /// A board, and one pass that tightens block after block.
    Board,
    /// A board, and one worker.
    One,
    /// A board, and two workers.
    Two,
    /// A board, and two workers, of whom the second is held before its first block until the first has
    /// come to the last layer.
    Held,
}

impl Engine {
    /// The engine of this name.
    pub(crate) fn named(name: &str) -> Option<Engine> {
        match name {
            "plan" => Some(Engine::Plan),
            "tables" => Some(Engine::Tables),
            "window" => Some(Engine::Window),
            "board" => Some(Engine::Board),
            "one" => Some(Engine::One),
            "two" => Some(Engine::Two),
            "held" => Some(Engine::Held),
            _ => None,
        }
    }

    /// Goes through the layers of the plan, and tells how many they are; 0 where a board can't hold
    /// them. The only error is want of memory.
    pub(crate) fn run<R: Threads + Sync>(
        self,
        rt: &R,
        alloc: Global,
        plan: Plan,
    ) -> Result<u32, AllocError>
        requires sound { IsSoundPlan plan }
    {
        let last = plan.layers;
        let layers = last + 1;
        let states = plan.frame.rows.len() as u64;
        if states == 0 || u64::from(layers) * states > MOST_CELLS {
            return Ok(0);
        }
        match self {
            Engine::Plan => {}
            Engine::Tables => {
                plain_tables(alloc, &plan)?;
            }
            Engine::Window => {
                window_brackets(alloc, &plan)?;
            }
            Engine::Board => {
                let (board, mut pass) = Board::open(alloc, plan)?;
                tighten_all(&board, &mut pass);
            }
            Engine::One => race(rt, alloc, plan, 1, &OpenGate)?,
            Engine::Two => race(rt, alloc, plan, 2, &OpenGate)?,
            Engine::Held => race(rt, alloc, plan, 2, &HoldsSecond::until(last))?,
        }
        Ok(layers)
    }
}

// Makes all words of a board final by so many workers.
fn race<R: Threads + Sync, G: Gate>(
    rt: &R,
    alloc: Global,
    plan: Plan,
    workers: u32,
    gate: &G,
) -> Result<(), AllocError>
    requires sound { IsSoundPlan plan }
    requires cells { (plan.layers + 1) * length plan.frame.rows ≤ 8388608 }
    requires states { 0 < length plan.frame.rows }
    requires some { 1 ≤ workers }
    requires few { workers ≤ 64 }
{
    let (board, pass) = Board::open(alloc, plan)?;
    let unwatched = Watch { state: 0, count: 0 };
    run(rt, alloc, &board, pass, workers, unwatched, gate)?;
    Ok(())
}

// Tightens all blocks, layer by layer.
fn tighten_all(board: &Board, pass: &mut Pass)
    requires sound { IsSoundPlan board.now.plan }
    requires pass { IsPassOf board.now pass.old }
    ensures { IsPassOf board.now pass.new }
{
    let layers = board.plan().layers;
    for k in 1..layers + 1 {
        tighten_layer(board, pass, k);
    }
}

fn tighten_layer(board: &Board, pass: &mut Pass, k: u32)
    requires sound { IsSoundPlan board.now.plan }
    requires pass { IsPassOf board.now pass.old }
    requires above { 1 ≤ k }
    requires layer { k ≤ board.now.plan.layers }
    ensures { IsPassOf board.now pass.new }
{
    for b in 0..board.blocks() {
        tighten_block(board, pass, k, b);
    }
}
