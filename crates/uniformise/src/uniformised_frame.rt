// The frame of an until over the uniformised chain of a model.
ghost use Rattle.std.specs.Prelude.{◌≡◌, ◌<◌, ◌^◌, All, IfOk, length};
ghost use Rattle.ctmc_semantics.specs.Uniformised.{uniform_rate, uniformised};
ghost use Rattle.model_core.specs.Model.{model_chain};
ghost use Rattle.step_core.specs.FrameRows.{StandFor};
ghost use Rattle.step_core.specs.SoundFrame.{AreSoundSets, IsSoundFrame};

use crate::uniformised_rows::uniformised_rows;
use model_core::Model;
use std::alloc::{AllocError, Global};
use step_core::{Frame, Sets};

/// A row of the uniformised chain for each state, and the sets of an until.
pub(crate) fn uniformised_frame(
    alloc: Global,
    model: &Model,
    sets: Sets,
    uniform: u64,
) -> Result<Frame, AllocError>
    requires sets { AreSoundSets model.now.n sets }
    requires value { uniform ≡ uniform_rate (model_chain model.now) }
    requires bound { uniform < 2 ^ 63 }
    ensures sound { IfOk result IsSoundFrame }
    ensures stand { IfOk result (λ frame. StandFor frame.rows (uniformised (model_chain model.now))) }
    ensures divisors { IfOk result (λ frame. All (λ row. row.den ≡ uniform_rate (model_chain model.now)) frame.rows) }
    ensures sets_are { IfOk result (λ frame. frame.sets ≡ sets) }
    ensures states { IfOk result (λ frame. length frame.rows ≡ model.now.n) }
{
    let rows = uniformised_rows(alloc, model, uniform)?;
    Ok(Frame { rows, sets })
}
