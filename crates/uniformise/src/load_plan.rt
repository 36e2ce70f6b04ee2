// The plan of a bounded until over a frame, by its load.
ghost use Rattle.std.specs.Prelude.{◌≡◌, ◌≤◌, IfOk};
ghost use Rattle.ctmc_semantics.specs.Chain.{Chain};
ghost use Rattle.ctmc_semantics.specs.Horizon.{horizon};
ghost use Rattle.ctmc_semantics.specs.Uniformised.{uniformised};
ghost use Rattle.ctmc_semantics.specs.Weights.{mode};
ghost use Rattle.poisson_tail.specs.declared.layers.TheConstants.{MOST_LAYERS};
ghost use Rattle.step_core.specs.FrameRows.{StandFor};
ghost use Rattle.step_core.specs.SoundFrame.{IsSoundFrame};
ghost use Rattle.uniformise.specs.TimePlan.{IsTimePlan};

use graph_reach::can_reach;
use poisson_tail::{Load, weights};
use std::alloc::{AllocError, Global};
use step_core::{Frame, Mix, Plan, set_layer};

/// The plan of reaching the goal of the frame through its live states within the load's time, which
/// looks at the jumps up to `last`, the load's horizon for so many bits.
pub fn plan_of_load(
    alloc: Global,
    frame: Frame,
    load: &Load,
    last: u32,
    bits: u32,
) -> Result<Plan, AllocError>
    requires sound { IsSoundFrame frame }
    requires last { last ≡ horizon load.now bits }
    requires few { last ≤ MOST_LAYERS }
    requires has_mode { mode load.now ≤ last }
    requires some_bits { 8 ≤ bits }
    requires few_bits { bits ≤ 48 }
    ensures plan { IfOk result (λ plan. (chain : Chain) → StandFor frame.rows (uniformised chain)
        → IsTimePlan chain load.now bits frame.sets plan) }
    ensures frame { IfOk result (λ plan. plan.frame ≡ frame) }
{
    let whole = &frame;
    let start_upper = set_layer(alloc, &whole.sets.goal_may)?;
    let reach = can_reach(alloc, whole)?;
    Ok(Plan {
        frame,
        layers: last,
        start_upper,
        reach,
        mix: Mix::Poisson(weights(alloc, load, last)?, bits),
    })
}
