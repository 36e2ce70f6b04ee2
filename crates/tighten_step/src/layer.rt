// The seals of a layer.

ghost use Rattle.std.specs.Prelude.{◌≡◌, ℕ, ◌≤◌, ◌↔◌, IsTrue};
ghost use Rattle.bound_grid.specs.Passes.{IsPassOf, KnowsMore, notes_of};
ghost use Rattle.bound_grid.specs.SealNotes.{NotesLayer};

use bound_grid::{Board, Pass};

/// Looks at every seal of a layer, and says whether each is set. Those of layer 0 are.
pub(crate) fn see_layer(board: &Board, pass: &mut Pass, k: u32) -> bool
    requires pass { IsPassOf board.now pass.old }
    requires layer { k ≤ board.now.plan.layers }
    ensures knows { KnowsMore board.now pass.old pass.new }
    ensures first { k ≡ 0 → IsTrue result }
    ensures answer { IsTrue result ↔ NotesLayer board.now.plan (notes_of pass.new) k }
{
    let mut all = true;
    for b in 0..board.blocks() {
        let set = board.sealed(pass, k, b);
        all = all & set;
    }
    all
}
