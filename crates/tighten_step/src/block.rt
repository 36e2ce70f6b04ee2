// One block of a layer.

ghost use Rattle.std.specs.Prelude.{◌≡◌, ℕ, ◌+◌, ◌-◌, ◌*◌, ◌<◌, ◌≤◌, ◌↔◌, IsTrue, length, min};
ghost use Rattle.step_core.specs.GoodLaws.{EqualTables};
ghost use Rattle.step_core.specs.Limits.{sizes_of};
ghost use Rattle.step_core.specs.Places.{blocks, block_of};
ghost use Rattle.step_core.specs.SoundPlan.{IsSoundPlan};
ghost use Rattle.bound_grid.specs.Passes.{IsPassOf, KnowsMore, notes_of, seal_note};
ghost use Rattle.bound_grid.specs.SealNotes.{NotesLayer};
ghost use Rattle.tighten_step.specs.Tight.{AreTight};

use crate::layer::see_layer;
use crate::state::tighten;
use bound_grid::{Board, Pass};
use step_core::{BLOCK_STATES, Plan};

/// The state after the last one of a block.
#[inline]
fn block_end(plan: &Plan, b: u32) -> u32
    requires sound { IsSoundPlan plan.now }
    requires block { b < blocks (sizes_of plan.now) }
    ensures { result ≡ min (BLOCK_STATES * (b + 1)) (length plan.now.frame.rows) }
{
    let states = plan.frame.rows.len() as u32;
    states.min(BLOCK_STATES * (b + 1))
}

/// Makes the words of each state of the block as good as what the pass knows lets them be.
fn tighten_states(board: &Board, pass: &mut Pass, k: u32, b: u32)
    requires sound { IsSoundPlan board.now.plan }
    requires pass { IsPassOf board.now pass.old }
    requires above { 1 ≤ k }
    requires layer { k ≤ board.now.plan.layers }
    requires block { b < blocks (sizes_of board.now.plan) }
    ensures knows { KnowsMore board.now pass.old pass.new }
    ensures tight { (s : ℕ) → s < length board.now.plan.frame.rows → block_of s ≡ b
        → AreTight board.now.plan (notes_of pass.old) (notes_of pass.new) k s }
    ensures exact { NotesLayer board.now.plan (notes_of pass.old) (k - 1)
        → (s : ℕ) → s < length board.now.plan.frame.rows → block_of s ≡ b → EqualTables board.now.plan (notes_of pass.new) k s }
    ensures seals { (j c : ℕ) → j ≤ board.now.plan.layers → c < blocks (sizes_of board.now.plan)
        → seal_note board.now pass.new j c ≡ seal_note board.now pass.old j c }
{
    for s in BLOCK_STATES * b..block_end(board.plan(), b) {
        tighten(board, pass, k, s);
    }
}

/// Makes the words of each state of the block final, and seals the block. All of the layer before is
/// known to be sealed, so no seal is looked at.
///
/// The layer is 1 or later.
pub fn finish_block(board: &Board, pass: &mut Pass, k: u32, b: u32)
    requires sound { IsSoundPlan board.now.plan }
    requires pass { IsPassOf board.now pass.old }
    requires above { 1 ≤ k }
    requires layer { k ≤ board.now.plan.layers }
    requires block { b < blocks (sizes_of board.now.plan) }
    requires before { NotesLayer board.now.plan (notes_of pass.old) (k - 1) }
    ensures knows { KnowsMore board.now pass.old pass.new }
    ensures sealed { seal_note board.now pass.new k b ≡ 1 }
{
    tighten_states(board, pass, k, b);
    board.seal(pass, k, b);
}

/// Looks at every seal of the layer before, makes the words of each state of the block as good as
/// what the pass knows lets them be, and seals the block where all those seals were set. Says
/// whether they were.
///
/// The layer is 1 or later.
pub fn tighten_block(board: &Board, pass: &mut Pass, k: u32, b: u32) -> bool
    requires sound { IsSoundPlan board.now.plan }
    requires pass { IsPassOf board.now pass.old }
    requires above { 1 ≤ k }
    requires layer { k ≤ board.now.plan.layers }
    requires block { b < blocks (sizes_of board.now.plan) }
    ensures knows { KnowsMore board.now pass.old pass.new }
    ensures tight { (s : ℕ) → s < length board.now.plan.frame.rows → block_of s ≡ b
        → AreTight board.now.plan (notes_of pass.old) (notes_of pass.new) k s }
    ensures answer { IsTrue result ↔ NotesLayer board.now.plan (notes_of pass.new) (k - 1) }
    ensures sealed { IsTrue result → seal_note board.now pass.new k b ≡ 1 }
    ensures known { NotesLayer board.now.plan (notes_of pass.old) (k - 1) → IsTrue result }
    ensures first { k ≡ 1 → IsTrue result }
{
    let all = see_layer(board, pass, k - 1);
    tighten_states(board, pass, k, b);
    if !all {
        return false;
    }
    board.seal(pass, k, b);
    true
}
