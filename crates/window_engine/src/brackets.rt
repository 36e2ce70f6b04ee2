// The brackets of all states.

ghost use Rattle.std.specs.Prelude.{◌≡◌, ℕ, ◌<◌, ◌≤◌, All, EachIndex, IfOk, length};
ghost use Rattle.mix_columns.specs.Mixed.{one_thread_words, plan_settle, words_of};
ghost use Rattle.mix_columns.specs.SideBySide.{bracket_at};
ghost use Rattle.step_core.specs.SoundPlan.{IsSoundPlan};

use crate::run::all_layers;
use mix_columns::settle;
use round_out::ONE;
use std::alloc::{AllocError, Global};
use step_core::{Bracket, Plan};

/// The settled brackets, in their places.
fn settle_all(plan: &Plan, mut brackets: Vec<Bracket>) -> Vec<Bracket>
    requires sound { IsSoundPlan plan.now }
    requires states { length brackets.items ≡ length plan.now.frame.rows }
    requires lower_words { All (λ b. b.lower ≤ ONE) brackets.items }
    requires upper_words { All (λ b. b.upper ≤ ONE) brackets.items }
    ensures states { length result.items ≡ length brackets.items }
    ensures settled { EachIndex result.items (λ s. words_of (bracket_at result.items s)
        ≡ plan_settle plan.now s (words_of (bracket_at brackets.items s))) }
    ensures lower_words { All (λ b. b.lower ≤ ONE) result.items }
    ensures upper_words { All (λ b. b.upper ≤ ONE) result.items }
{
    for state in 0..brackets.len() {
        let settled = settle(plan, state as u32, brackets[state]);
        brackets[state] = settled;
    }
    brackets
}

/// The brackets of all states: each is the settled mix of the state's words in the plan's tables.
///
/// The tables are never held: two layers of words are, and the states' mixers. The only error is
/// want of memory.
pub fn window_brackets(alloc: Global, plan: &Plan) -> Result<Vec<Bracket>, AllocError>
    requires { IsSoundPlan plan.now }
    ensures states { IfOk result (λ brackets. length brackets.items ≡ length plan.now.frame.rows) }
    ensures exact { IfOk result (λ brackets. (s : ℕ) → s < length plan.now.frame.rows
        → words_of (bracket_at brackets.items s) ≡ one_thread_words plan.now s) }
    ensures lower_words { IfOk result (λ brackets. All (λ b. b.lower ≤ ONE) brackets.items) }
    ensures upper_words { IfOk result (λ brackets. All (λ b. b.upper ≤ ONE) brackets.items) }
{
    let mixers = all_layers(alloc, plan)?;
    let brackets = mixers.finish(alloc, plan)?;
    Ok(settle_all(plan, brackets))
}
