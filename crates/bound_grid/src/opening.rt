// A board at the start.

ghost use Rattle.std.specs.Prelude.{◌≡◌, ◌*◌, ◌+◌, ◌≤◌, [], IfOk, length};
ghost use Rattle.step_core.specs.Limits.{opening_words};
ghost use Rattle.step_core.specs.SoundPlan.{IsSoundPlan};
ghost use Rattle.bound_grid.specs.Passes.{IsPassOf, notes_of, tickets_of, draws_of, stop_note};

use crate::board::{Board, Pass};
use atomic_table::Table;
use flat_rows::StateRows;
use std::alloc::{AllocError, Global};
use step_core::{Layout, MOST_DRAWS, Plan, words_at_start};

impl Board {
    /// A board of the plan, and its first pass, which knows all words and has all draws.
    ///
    /// All memory of the board is taken here, and none by any other call. The only error is want of
    /// memory; the plan is dropped then.
    pub fn open(alloc: Global, plan: Plan) -> Result<(Board, Pass), AllocError>
        requires sound { IsSoundPlan plan }
        requires cells { (plan.layers + 1) * length plan.frame.rows ≤ 8388608 }
        ensures plan { IfOk result (λ made. made.0.plan ≡ plan) }
        ensures pass { IfOk result (λ made. IsPassOf made.0 made.1) }
        ensures notes { IfOk result (λ made. notes_of made.1 ≡ opening_words plan) }
        ensures tickets { IfOk result (λ made. tickets_of made.1 ≡ []) }
        ensures draws { IfOk result (λ made. draws_of made.1 ≡ MOST_DRAWS) }
        ensures stop { IfOk result (λ made. stop_note made.0 made.1 ≡ 0) }
    {
        let layout = Layout::of(&plan);
        let rows = StateRows::new(alloc, &plan.frame.rows, &plan.frame.sets, &plan.reach)?;
        let words = words_at_start(alloc, &plan)?;
        let (table, seat) = Table::of_words(alloc, words.as_slice(), &plan)?;
        let board = Board {
            plan,
            layout,
            rows,
            table,
        };
        Ok((board, Pass { seat }))
    }
}
