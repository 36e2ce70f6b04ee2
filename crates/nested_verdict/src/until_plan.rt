// The plan of an until, by its bound.
ghost use Rattle.std.specs.Prelude.{◌≡◌, ◌≢◌, Some, None, IfOk, IfErr, length};
ghost use Rattle.command_words.specs.Laws.{AreInRange};
ghost use Rattle.model_core.specs.Model.{labelled_chain};
ghost use Rattle.nested_verdict.specs.ThreeValues.{verdict_sets};
ghost use Rattle.nested_verdict.specs.UntilPlan.{bound_refusal, IsPlanOf};

use crate::verdict_lists::verdict_sets;
use command_words::Options;
use csl_syntax::Bound;
use model_core::Model;
use report::Verdict;
use reward_dual::reward_plan;
use std::alloc::Global;
use step_core::{Plan, PlanError};
use uniformise::{time_plan, unbounded_plan};

/// The plan of reaching the goal through live states within the bound, as far as the verdicts tell
/// which these are, or why there is none.
pub(crate) fn until_plan(
    alloc: Global,
    model: &Model,
    live: &[Verdict],
    goal: &[Verdict],
    bound: &Bound,
    options: &Options,
) -> Result<Plan, PlanError>
    requires live { length live.now ≡ model.now.n }
    requires goal { length goal.now ≡ model.now.n }
    requires options { AreInRange options.now }
    ensures plan { IfOk result (IsPlanOf (labelled_chain model.now) options.now bound.now (verdict_sets live.now goal.now)) }
    ensures accepted { IfOk result (λ _. bound_refusal (labelled_chain model.now) options.now bound.now ≡ None) }
    ensures refused { IfErr result (λ error. error ≢ PlanError.Memory
        → bound_refusal (labelled_chain model.now) options.now bound.now ≡ Some error) }
{
    let sets = verdict_sets(alloc, live, goal)?;
    match bound {
        Bound::Time(time) => time_plan(alloc, model, sets, *time, options.bits),
        Bound::Unbounded => unbounded_plan(alloc, model, sets, options.jumps),
        Bound::Reward(reward) => reward_plan(alloc, model, sets, *reward, options.bits),
    }
}
