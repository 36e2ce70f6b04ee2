// What the words of a state may be brought to.

ghost use Rattle.std.specs.Prelude.{◌≡◌, ◌-◌, ◌<◌, ◌≤◌, length};
ghost use Rattle.ctmc_semantics.specs.RoundedTables.{set_words};
ghost use Rattle.ctmc_semantics.specs.Sets.{holds_at};
ghost use Rattle.step_core.specs.SoundPlan.{IsSoundPlan};
ghost use Rattle.bound_grid.specs.Passes.{IsPassOf, notes_of};
ghost use Rattle.bound_grid.specs.SealNotes.{NotesRow};
ghost use Rattle.tighten_step.specs.Quotients.{KnowsMoreWords};
ghost use Rattle.tighten_step.specs.Values.{AreValues, AreFinal};

use crate::quotients::{both_quotients, high_quotient, low_quotient};
use bound_grid::{Board, Pass};
use round_out::ONE;
use step_core::Plan;

/// The words of a state that need no row: 1 at the goal, and else 0.
#[inline]
fn fixed_words(plan: &Plan, s: u32) -> (u64, u64)
    requires sound { IsSoundPlan plan.now }
    requires state { s < length plan.now.frame.rows }
    ensures low { result.0 ≡ set_words (holds_at plan.now.frame.sets.goal_must) s }
    ensures high { result.1 ≡ set_words (holds_at plan.now.frame.sets.goal_may) s }
{
    let sets = &plan.frame.sets;
    let low = if sets.goal_must[s as usize] { ONE } else { 0 };
    let high = if sets.goal_may[s as usize] { ONE } else { 0 };
    (low, high)
}

/// The values to which the lower and the upper word of a state in a layer may be brought. The pass
/// notes what it looks at, which is in the layer before.
#[inline]
pub(crate) fn row_values(board: &Board, pass: &mut Pass, k: u32, s: u32) -> (u64, u64)
    requires sound { IsSoundPlan board.now.plan }
    requires pass { IsPassOf board.now pass.old }
    requires above { 1 ≤ k }
    requires layer { k ≤ board.now.plan.layers }
    requires state { s < length board.now.plan.frame.rows }
    ensures knows { KnowsMoreWords board.now pass.old pass.new }
    ensures values { AreValues board.now.plan (notes_of pass.new) k s result.0 result.1 }
    ensures exact { NotesRow board.now.plan (notes_of pass.old) (k - 1) s → AreFinal board.now.plan k s result.0 result.1 }
{
    let row = board.row(s);
    let below = k - 1;
    match (row.low, row.high) {
        (true, true) => both_quotients(board, pass, below, &row),
        (true, false) => (low_quotient(board, pass, below, &row), ONE),
        (false, true) => (0, high_quotient(board, pass, below, &row)),
        (false, false) => fixed_words(board.plan(), s),
    }
}
