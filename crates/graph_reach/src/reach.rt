ghost use Rattle.std.specs.Prelude.{IfOk};
ghost use Rattle.step_core.specs.Reach.{TellsReach};
ghost use Rattle.step_core.specs.SoundFrame.{IsSoundFrame};

use crate::search::leading;
use crate::sources::sources_of;
use std::alloc::{AllocError, Global};
use step_core::Frame;

/// Tells of each state of a sound frame whether it can reach the goal: whether it may be the goal,
/// or a walk through states that may be live leads from it to one that may.
///
/// The time is linear in the number of states and of entries. The only error is want of memory.
pub fn can_reach(alloc: Global, frame: &Frame) -> Result<Vec<bool>, AllocError>
    requires sound { IsSoundFrame frame.now }
    ensures exact { IfOk result (λ reach. TellsReach frame.now reach.items) }
{
    let sets = &frame.sets;
    let sources = sources_of(alloc, &frame.rows, &sets.live_may, &sets.goal_may)?;
    leading(alloc, &sources, &sets.goal_may)
}

#[cfg(test)]
mod tests;
