// The uniformised chain of a model, as rows of jumps.
ghost use Rattle.std.specs.Prelude.{◌≡◌, ◌<◌, ◌≤◌, ◌^◌, length, All, IfOk};
ghost use Rattle.ctmc_semantics.specs.Uniformised.{uniform_rate, uniformised};
ghost use Rattle.model_core.specs.Model.{model_chain};
ghost use Rattle.step_core.specs.FrameRows.{StandFor};
ghost use Rattle.step_core.specs.SoundFrame.{IsSoundRow};

use crate::jump_rows::jump_row;
use model_core::Model;
use std::alloc::{AllocError, Global};
use step_core::Row;

/// The rows of the uniformised chain, a row for each state: the rates over the uniform rate, and the loop's share.
pub(crate) fn uniformised_rows(
    alloc: Global,
    model: &Model,
    uniform: u64,
) -> Result<Vec<Row>, AllocError>
    requires value { uniform ≡ uniform_rate (model_chain model.now) }
    requires bound { uniform < 2 ^ 63 }
    ensures stand { IfOk result (λ rows. StandFor rows.items (uniformised (model_chain model.now))) }
    ensures sound { IfOk result (λ rows. All (IsSoundRow model.now.n) rows.items) }
    ensures divisors { IfOk result (λ rows. All (λ row. row.den ≡ uniform) rows.items) }
    ensures states { IfOk result (λ rows. length rows.items ≡ model.now.n) }
    ensures some { IfOk result (λ rows. 1 ≤ length rows.items) }
    ensures few { IfOk result (λ rows. length rows.items ≤ 65536) }
{
    let n = model.n();
    let mut rows = Vec::with_capacity(alloc, n as usize)?;
    for s in 0..n {
        rows.push(jump_row(alloc, model, s, 1, uniform)?)?;
    }
    Ok(rows)
}
