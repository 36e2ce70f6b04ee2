// What one worker does.

ghost use Rattle.std.specs.Prelude.{◌≡◌, ℕ, ◌+◌, ◌<◌, ◌≤◌, max};
ghost use Rattle.bound_grid.specs.Passes.{IsPassOf, KnowsAtLeast, KnowsMore, draws_of, notes_of};
ghost use Rattle.bound_grid.specs.SealNotes.{NotesLayer};
ghost use Rattle.column_workers.specs.DrawnBlocks.{HasEnded, IsFresh, block_tickets};
ghost use Rattle.step_core.specs.SoundPlan.{IsSoundPlan};

use crate::early::{is_stopped, stops};
use crate::enough::Enough;
use crate::sure::make_sure_from;
use bound_grid::{Board, Pass};
use outside::Gate;
use tighten_step::finish_block;

/// Draws tickets for as long as they have blocks, and makes these final.
///
/// Before a block of a layer the worker makes sure of the layers before, and so waits for nobody. It
/// pauses at the gate before its first draw, as in layer 1, and before its first block of each later
/// layer. Where the run may end `early`, it also ends where some worker found that all brackets are
/// narrow enough.
pub(crate) fn work<G: Gate, E: Enough>(
    board: &Board,
    pass: &mut Pass,
    worker: u32,
    gate: &G,
    early: bool,
    enough: &E,
)
    requires sound { IsSoundPlan board.now.plan }
    requires fresh { IsFresh board.now pass.old }
    ensures knows { KnowsAtLeast board.now pass.old pass.new }
    ensures draws { draws_of pass.old ≤ draws_of pass.new + (block_tickets board.now.plan + 1) }
    ensures ended { HasEnded board.now early pass.new }
{
    gate.pause(worker, 1);
    let blocks = board.blocks();
    let tickets = board.open_blocks();
    let mut sure = 0u32;
    for _draw in 0..tickets + 1 {
        if is_stopped(board, pass, early) {
            return;
        }
        let ticket = board.draw(pass);
        if ticket >= tickets {
            return;
        }
        let k = (1 + ticket / u64::from(blocks)) as u32;
        let b = (ticket % u64::from(blocks)) as u32;
        if stops(board, pass, k, b, early, enough) {
            return;
        }
        sure = reach_layer(board, pass, worker, gate, sure, k);
        finish_block(board, pass, k, b);
    }
}

// Makes sure of all layers before a layer, of which those before `sure` are known to be, and pauses
// at the gate where that is news and the layer isn't the first. Answers up to which layer all are
// sure then.
fn reach_layer<G: Gate>(
    board: &Board,
    pass: &mut Pass,
    worker: u32,
    gate: &G,
    sure: u32,
    k: u32,
) -> u32
    requires sound { IsSoundPlan board.now.plan }
    requires pass { IsPassOf board.now pass.old }
    requires layer { k ≤ board.now.plan.layers }
    requires known { (j : ℕ) → j < sure → NotesLayer board.now.plan (notes_of pass.old) j }
    ensures knows { KnowsMore board.now pass.old pass.new }
    ensures answer { result ≡ max sure k }
    ensures sealed { (j : ℕ) → j < result → NotesLayer board.now.plan (notes_of pass.new) j }
{
    if k <= sure {
        return sure;
    }
    make_sure_from(board, pass, sure, k);
    if k > 1 {
        gate.pause(worker, k);
    }
    k
}
