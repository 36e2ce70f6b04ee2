// One state of a layer.

ghost use Rattle.std.specs.Prelude.{◌≡◌, ℕ, ◌-◌, ◌<◌, ◌≤◌, length, slice_set};
ghost use Rattle.step_core.specs.GoodLaws.{EqualTables};
ghost use Rattle.step_core.specs.Limits.{sizes_of};
ghost use Rattle.step_core.specs.Places.{blocks, lower_place, upper_place};
ghost use Rattle.step_core.specs.PlanTables.{plan_low, plan_high};
ghost use Rattle.step_core.specs.SoundPlan.{IsSoundPlan};
ghost use Rattle.bound_grid.specs.Passes.{IsPassOf, KnowsMore, notes_of, lower_note, upper_note, seal_note};
ghost use Rattle.bound_grid.specs.SealNotes.{NotesRow};
ghost use Rattle.tighten_step.specs.Tight.{AreTight};

use crate::values::row_values;
use bound_grid::{Board, Pass};
use round_out::ONE;

/// Makes the lower word of a state at least `to`. A word that is as great already is looked at and
/// left alone, and none is looked at for 0.
#[inline]
fn raise_to(board: &Board, pass: &mut Pass, k: u32, s: u32, to: u64)
    requires pass { IsPassOf board.now pass.old }
    requires layer { k ≤ board.now.plan.layers }
    requires state { s < length board.now.plan.frame.rows }
    requires limit { to ≤ plan_low board.now.plan k s }
    ensures knows { KnowsMore board.now pass.old pass.new }
    ensures notes { notes_of pass.new
        ≡ slice_set (notes_of pass.old) (lower_place (sizes_of board.now.plan) k s) (lower_note board.now pass.new k s) }
    ensures raised { to ≤ lower_note board.now pass.new k s }
{
    if to == 0 {
        return;
    }
    if board.load_lower(pass, k, s) < to {
        board.raise(pass, k, s, to);
    }
}

/// Makes the upper word of a state at most `to`. A word that is as small already is looked at and
/// left alone, and none is looked at for 1.
#[inline]
fn cut_to(board: &Board, pass: &mut Pass, k: u32, s: u32, to: u64)
    requires sound { IsSoundPlan board.now.plan }
    requires pass { IsPassOf board.now pass.old }
    requires layer { k ≤ board.now.plan.layers }
    requires state { s < length board.now.plan.frame.rows }
    requires limit { plan_high board.now.plan k s ≤ to }
    ensures knows { KnowsMore board.now pass.old pass.new }
    ensures notes { notes_of pass.new
        ≡ slice_set (notes_of pass.old) (upper_place (sizes_of board.now.plan) k s) (upper_note board.now pass.new k s) }
    ensures cut { upper_note board.now pass.new k s ≤ to }
{
    if to >= ONE {
        return;
    }
    if board.load_upper(pass, k, s) > to {
        board.cut(pass, k, s, to);
    }
}

/// Makes both words of a state in a layer at least as good as its row values over what the pass then
/// knows of the layer before.
///
/// The layer is 1 or later. Where the pass notes the seals of all blocks to which the row leads, the
/// words are final. A word that is as good already is looked at and left alone.
pub fn tighten(board: &Board, pass: &mut Pass, k: u32, s: u32)
    requires sound { IsSoundPlan board.now.plan }
    requires pass { IsPassOf board.now pass.old }
    requires above { 1 ≤ k }
    requires layer { k ≤ board.now.plan.layers }
    requires state { s < length board.now.plan.frame.rows }
    ensures knows { KnowsMore board.now pass.old pass.new }
    ensures tight { AreTight board.now.plan (notes_of pass.new) (notes_of pass.new) k s }
    ensures exact { NotesRow board.now.plan (notes_of pass.old) (k - 1) s → EqualTables board.now.plan (notes_of pass.new) k s }
    ensures seals { (j b : ℕ) → j ≤ board.now.plan.layers → b < blocks (sizes_of board.now.plan)
        → seal_note board.now pass.new j b ≡ seal_note board.now pass.old j b }
{
    let (low, high) = row_values(board, pass, k, s);
    raise_to(board, pass, k, s, low);
    cut_to(board, pass, k, s, high);
}
