// The columns of all states.

ghost use Rattle.std.specs.Prelude.{◌≡◌, ◌≤◌, length, vec_len, vec_capacity};
ghost use Rattle.bound_grid.specs.Passes.{IsPassOf, KnowsMore, notes_of};
ghost use Rattle.bound_grid.specs.SealNotes.{NotesAll};
ghost use Rattle.reader_pass.specs.StateBrackets.{AreOneThread, AreRead};
ghost use Rattle.step_core.specs.SoundPlan.{IsSoundPlan};

use crate::column::read;
use bound_grid::{Board, Pass};
use step_core::Bracket;

/// Reads the bracket of each state, in their order, into an empty list that has room for them. Where
/// the pass knows every seal they are those that one thread computes.
///
/// It takes no memory.
pub fn read_states(board: &Board, pass: &mut Pass, brackets: &mut Vec<Bracket>)
    requires sound { IsSoundPlan board.now.plan }
    requires pass { IsPassOf board.now pass.old }
    requires empty { vec_len brackets.old ≡ 0 }
    requires room { length board.now.plan.frame.rows ≤ vec_capacity brackets.old }
    ensures knows { KnowsMore board.now pass.old pass.new }
    ensures read { AreRead board.now.plan (notes_of pass.old) brackets.new.items }
    ensures sealed { NotesAll board.now.plan (notes_of pass.old) → AreOneThread board.now.plan brackets.new.items }
{
    let plan = board.plan();
    let frame = &plan.frame;
    for s in 0..frame.rows.len() {
        let bracket = read(board, pass, s as u32);
        brackets.push(bracket).unwrap();
    }
}
