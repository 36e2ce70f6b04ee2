// Layers that are made sure of: each block is looked at, and made final where it isn't sealed.

ghost use Rattle.std.specs.Prelude.{◌≡◌, ℕ, ◌+◌, ◌-◌, ◌<◌, ◌≤◌};
ghost use Rattle.bound_grid.specs.Passes.{IsPassOf, KnowsMore, notes_of, seal_note};
ghost use Rattle.bound_grid.specs.SealNotes.{NotesLayer, NotesAll};
ghost use Rattle.step_core.specs.Limits.{sizes_of};
ghost use Rattle.step_core.specs.Places.{blocks};
ghost use Rattle.step_core.specs.SoundPlan.{IsSoundPlan};

use bound_grid::{Board, Pass};
use tighten_step::finish_block;

// Looks at the seal of a block, and makes the block final where it isn't set. That can be done at
// once, since all of the layer before is known to be sealed.
fn settle_block(board: &Board, pass: &mut Pass, k: u32, b: u32)
    requires sound { IsSoundPlan board.now.plan }
    requires pass { IsPassOf board.now pass.old }
    requires layer { k ≤ board.now.plan.layers }
    requires block { b < blocks (sizes_of board.now.plan) }
    requires before { 0 < k → NotesLayer board.now.plan (notes_of pass.old) (k - 1) }
    ensures knows { KnowsMore board.now pass.old pass.new }
    ensures sealed { seal_note board.now pass.new k b ≡ 1 }
{
    if board.sealed(pass, k, b) {
        return;
    }
    finish_block(board, pass, k, b);
}

// Makes sure of a layer: the pass notes all its seals then.
fn make_sure(board: &Board, pass: &mut Pass, k: u32)
    requires sound { IsSoundPlan board.now.plan }
    requires pass { IsPassOf board.now pass.old }
    requires layer { k ≤ board.now.plan.layers }
    requires before { 0 < k → NotesLayer board.now.plan (notes_of pass.old) (k - 1) }
    ensures knows { KnowsMore board.now pass.old pass.new }
    ensures sealed { NotesLayer board.now.plan (notes_of pass.new) k }
{
    for b in 0..board.blocks() {
        settle_block(board, pass, k, b);
    }
}

/// Makes sure of the layers from one on to the one before `end`. Those before it are known to be.
pub(crate) fn make_sure_from(board: &Board, pass: &mut Pass, from: u32, end: u32)
    requires sound { IsSoundPlan board.now.plan }
    requires pass { IsPassOf board.now pass.old }
    requires order { from ≤ end }
    requires end { end ≤ board.now.plan.layers + 1 }
    requires known { (j : ℕ) → j < from → NotesLayer board.now.plan (notes_of pass.old) j }
    ensures knows { KnowsMore board.now pass.old pass.new }
    ensures sealed { (j : ℕ) → j < end → NotesLayer board.now.plan (notes_of pass.new) j }
{
    for k in from..end {
        make_sure(board, pass, k);
    }
}

/// Makes sure of every layer, whatever was done of them: the pass notes every seal then, and reads
/// the brackets that one thread computes.
pub fn finish(board: &Board, pass: &mut Pass)
    requires sound { IsSoundPlan board.now.plan }
    requires pass { IsPassOf board.now pass.old }
    ensures knows { KnowsMore board.now pass.old pass.new }
    ensures sealed { NotesAll board.now.plan (notes_of pass.new) }
{
    let layers = board.plan().layers;
    make_sure_from(board, pass, 0, layers + 1);
}
