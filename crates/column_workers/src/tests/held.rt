// A pass of a board that can lie behind a lock.

ghost use Rattle.bound_grid.specs.Passes.{IsPassOf};

use bound_grid::{Board, Pass};

/// A pass, and the board that it is of.
#[derive(Drop)]
pub(super) struct Held<'a> {
    pub(super) board: &'a Board,
    pub(super) pass: Pass,
    ghost of: { IsPassOf board.now pass },
}
