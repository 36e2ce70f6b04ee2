// The dual chain of a model, as rows of jumps.
ghost use Rattle.std.specs.Prelude.{◌≡◌, ℕ, ◌<◌, IfOk, IsSome, Some};
ghost use Rattle.csl_semantics.specs.Dual.{dual};
ghost use Rattle.ctmc_semantics.specs.Uniformised.{uniformised};
ghost use Rattle.model_core.specs.Model.{Rewards, labelled_chain, model_chain};
ghost use Rattle.step_core.specs.FrameRows.{StandFor, number_to};
ghost use Rattle.step_core.specs.SoundFrame.{AreSoundSets, IsSoundFrame, IsSoundRow};
ghost use Rattle.uniformise.specs.JumpRow.{jump_number};
ghost use Rattle.reward_dual.specs.Deciding.{row_factor, row_total};
ghost use Rattle.reward_dual.specs.EarningRows.{MakesRows};

use crate::deciding::Earning;
use model_core::Model;
use std::alloc::{AllocError, Global};
use step_core::{Frame, Row, Sets};
use uniformise::jump_row;

/// A row of the dual chain for each state, and the sets of an until.
pub(crate) fn dual_frame(
    alloc: Global,
    model: &Model,
    sets: Sets,
    fastest: Earning,
) -> Result<Frame, AllocError>
    requires rewards { IsSome model.now.rewards }
    requires makes { (rewards : Rewards) → (labelled_chain model.now).rewards ≡ Some rewards
        → MakesRows (labelled_chain model.now) rewards fastest }
    requires sets { AreSoundSets model.now.n sets }
    ensures sound { IfOk result IsSoundFrame }
    ensures stand { IfOk result (λ frame. (rewards : Rewards) → (labelled_chain model.now).rewards ≡ Some rewards
        → StandFor frame.rows (uniformised (dual (model_chain model.now) rewards.reward))) }
    ensures sets_are { IfOk result (λ frame. frame.sets ≡ sets) }
{
    let n = model.n();
    let mut rows = Vec::with_capacity(alloc, n as usize)?;
    for s in 0..n {
        rows.push(dual_row(alloc, model, s, fastest)?)?;
    }
    Ok(Frame { rows, sets })
}

// A state's row. Its divisor is the state's reward times the deciding rate, and each of its rates stands there times the deciding
// reward. Where no state is left, it stays.
fn dual_row(alloc: Global, model: &Model, s: u32, fastest: Earning) -> Result<Row, AllocError>
    requires rewards { IsSome model.now.rewards }
    requires makes { (rewards : Rewards) → (labelled_chain model.now).rewards ≡ Some rewards
        → MakesRows (labelled_chain model.now) rewards fastest }
    requires state { s < model.now.n }
    ensures sound { IfOk result (IsSoundRow model.now.n) }
    ensures divisor { IfOk result (λ row. (rewards : Rewards) → (labelled_chain model.now).rewards ≡ Some rewards
        → row.den ≡ row_total (model_chain model.now) rewards.reward s) }
    ensures numbers { IfOk result (λ row. (rewards : Rewards) → (labelled_chain model.now).rewards ≡ Some rewards
        → (t : ℕ) → t < model.now.n
        → number_to row.entries t ≡ jump_number (model_chain model.now) (row_factor (model_chain model.now) rewards.reward)
        (row_total (model_chain model.now) rewards.reward s) s t) }
{
    if fastest.exit == 0 {
        return jump_row(alloc, model, s, 1, 1);
    }
    jump_row(
        alloc,
        model,
        s,
        fastest.reward,
        model.reward(s) * fastest.exit,
    )
}
