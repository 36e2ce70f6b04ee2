// The end of a run before all is final: as soon as all brackets are narrow enough.

ghost use Rattle.std.specs.Prelude.{◌≡◌, ◌≤◌, IsTrue};
ghost use Rattle.bound_grid.specs.Passes.{IsPassOf, KnowsAtLeast, KnowsMore, draws_of, stop_note, tickets_of};
ghost use Rattle.step_core.specs.SoundPlan.{IsSoundPlan};

use crate::enough::Enough;
use bound_grid::{Board, Pass};
use reader_pass::read_front;

/// Whether some worker told all to stop. Nobody looks where the run may not end early.
pub(crate) fn is_stopped(board: &Board, pass: &mut Pass, early: bool) -> bool
    requires pass { IsPassOf board.now pass.old }
    ensures knows { KnowsAtLeast board.now pass.old pass.new }
    ensures tickets { tickets_of pass.new ≡ tickets_of pass.old }
    ensures draws { draws_of pass.new ≡ draws_of pass.old }
    ensures stopped { IsTrue result → IsTrue early × (stop_note board.now pass.new ≡ 1) }
{
    early && board.stopped(pass)
}

/// Before a block is tightened, in a run that may end early: where it is the first of a layer whose
/// number is a power of two, and all brackets are narrow enough, tells all to stop, and says so.
pub(crate) fn stops<E: Enough>(
    board: &Board,
    pass: &mut Pass,
    k: u32,
    b: u32,
    early: bool,
    enough: &E,
) -> bool
    requires sound { IsSoundPlan board.now.plan }
    requires pass { IsPassOf board.now pass.old }
    requires layer { k ≤ board.now.plan.layers }
    ensures knows { KnowsAtLeast board.now pass.old pass.new }
    ensures tickets { tickets_of pass.new ≡ tickets_of pass.old }
    ensures draws { draws_of pass.new ≡ draws_of pass.old }
    ensures stopped { IsTrue result → IsTrue early × (stop_note board.now pass.new ≡ 1) }
{
    if !early || b > 0 || !k.is_power_of_two() {
        return false;
    }
    if !are_enough(board, pass, k, enough) {
        return false;
    }
    board.stop(pass);
    true
}

// Whether the brackets that the pass reads of the layers before this one are all narrow enough. It
// goes no further than to the first that isn't.
fn are_enough<E: Enough>(board: &Board, pass: &mut Pass, k: u32, enough: &E) -> bool
    requires sound { IsSoundPlan board.now.plan }
    requires pass { IsPassOf board.now pass.old }
    requires layer { k ≤ board.now.plan.layers }
    ensures knows { KnowsMore board.now pass.old pass.new }
{
    let plan = board.plan();
    let frame = &plan.frame;
    for s in 0..frame.rows.len() {
        let bracket = read_front(board, pass, s as u32, k);
        if !enough.enough(bracket) {
            return false;
        }
    }
    true
}
