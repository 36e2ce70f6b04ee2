// The search backwards from the goal, along the jumps.

ghost use Rattle.std.specs.Prelude.{◌≡◌, ℕ, ◌<◌, ◌≤◌, ◌↔◌, ◌⊎◌, All, IfOk, IsTrue, length};
ghost use Rattle.std.specs.List.{Contains};
ghost use Rattle.std.specs.Result.{OnOk};
ghost use Rattle.ctmc_semantics.specs.Sets.{holds_at};
ghost use Rattle.graph_reach.specs.Sources.{AreInOrder, IsLinked};
ghost use Rattle.graph_reach.specs.Search.{IsOrderOf, Extends, TellsLeads};

use crate::sources::Sources;
use std::alloc::{AllocError, Global};

// Which states are marked, as those from which the goal can be reached, and the same states in the
// order in which they were marked.
#[derive(Debug, Drop)]
struct Marks {
    reach: Vec<bool>,
    order: Vec<u32>,
}

impl Marks {
    // Marks a state, unless it is marked already.
    fn mark(&mut self, state: u32) -> Result<(), AllocError>
        requires order { IsOrderOf self.old.reach.items self.old.order.items }
        requires state { state < length self.old.reach.items }
        ensures states { OnOk result (length self.new.reach.items ≡ length self.old.reach.items) }
        ensures order { OnOk result (IsOrderOf self.new.reach.items self.new.order.items) }
        ensures extends { OnOk result (Extends self.old.order.items self.new.order.items) }
        ensures marked { OnOk result ((s : ℕ) → IsTrue (holds_at self.new.reach.items s)
            ↔ (IsTrue (holds_at self.old.reach.items s) ⊎ (s ≡ state))) }
    {
        if !self.reach[state as usize] {
            self.reach[state as usize] = true;
            self.order.push(state)?;
        }
        Ok(())
    }

    // Marks all states of a list.
    fn mark_all(&mut self, states: &[u32]) -> Result<(), AllocError>
        requires order { IsOrderOf self.old.reach.items self.old.order.items }
        requires states { All (λ s. s < length self.old.reach.items) states.now }
        ensures states { OnOk result (length self.new.reach.items ≡ length self.old.reach.items) }
        ensures order { OnOk result (IsOrderOf self.new.reach.items self.new.order.items) }
        ensures extends { OnOk result (Extends self.old.order.items self.new.order.items) }
        ensures marked { OnOk result ((s : ℕ) → IsTrue (holds_at self.new.reach.items s)
            ↔ (IsTrue (holds_at self.old.reach.items s) ⊎ Contains states.now s)) }
    {
        for state in states {
            self.mark(*state)?;
        }
        Ok(())
    }
}

// The marks of the goal's states.
fn goal_marks(alloc: Global, goal: &[bool]) -> Result<Marks, AllocError>
    requires few { length goal.now ≤ 65536 }
    ensures states { IfOk result (λ marks. length marks.reach.items ≡ length goal.now) }
    ensures order { IfOk result (λ marks. IsOrderOf marks.reach.items marks.order.items) }
    ensures marked { IfOk result (λ marks. (s : ℕ) → IsTrue (holds_at marks.reach.items s) ↔ IsTrue (holds_at goal.now s)) }
{
    let mut marks = Marks {
        reach: vec![in alloc; false; goal.len()]?,
        order: Vec::with_capacity(alloc, goal.len())?,
    };
    for state in 0..goal.len() {
        if goal[state] {
            marks.mark(state as u32)?;
        }
    }
    Ok(marks)
}

// Tells of each state whether jumps lead from it to the goal.
pub fn leading(alloc: Global, sources: &Sources, goal: &[bool]) -> Result<Vec<bool>, AllocError>
    requires few { length goal.now ≤ 65536 }
    requires order { AreInOrder (length goal.now) sources.now.starts.items sources.now.ends.items sources.now.states.items }
    requires states { (s t : ℕ) → t < length goal.now
        → IsLinked sources.now.starts.items sources.now.ends.items sources.now.states.items s t → s < length goal.now }
    ensures { IfOk result (λ reach. TellsLeads sources.now.starts.items
        sources.now.ends.items sources.now.states.items goal.now reach.items) }
{
    let mut marks = goal_marks(alloc, goal)?;
    let mut turn = 0;
    while turn < marks.order.len() {
        let target = marks.order[turn] as usize;
        marks.mark_all(sources.of(target))?;
        turn += 1;
    }
    let Marks { reach, order: _ } = marks;
    Ok(reach)
}
