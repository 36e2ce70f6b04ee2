// The answers to probability operators, by the verdicts of their operands.
ghost use Rattle.std.specs.Prelude.{◌≡◌, ◌+◌, ◌*◌, ◌<◌, ◌≤◌, length, IfOk, Some, None, []};
ghost use Rattle.command_words.specs.Laws.{AreInRange};
ghost use Rattle.csl_semantics.specs.Meaning.{comparison_of};
ghost use Rattle.ctmc_semantics.specs.Fraction.{decimal_fraction};
ghost use Rattle.model_core.specs.Model.{labelled_chain};
ghost use Rattle.report.specs.Answer.{answer_lists};
ghost use Rattle.report.specs.AnswerText.{IsWritable};
ghost use Rattle.step_core.specs.SoundPlan.{IsSoundPlan};
ghost use Rattle.nested_verdict.specs.FormulaAnswer.{next_states, shown_answer};
ghost use Rattle.nested_verdict.specs.UntilBrackets.{ShowsUntilAnswers};
ghost use Rattle.nested_verdict.specs.WatchedBrackets.{IsWatched};

use crate::next_states::check_next;
use crate::state_answer::StateAnswer;
use crate::until_states::{UntilStates, check_until};
use crate::verdict_lists::{may_list, must_list};
use command_words::Options;
use csl_syntax::Op;
use decimal_text::Decimal;
use model_core::Model;
use outside::Gate;
use report::{Answer, Printed, Shown, Verdict};
use std::alloc::{AllocError, Global};
use std::thread::Threads;
use step_core::Plan;

/// The answer to `P{op threshold}[X goal]`, by the goal's verdicts.
pub(crate) fn next_answer(
    alloc: Global,
    model: &Model,
    goal: &[Verdict],
    op: Op,
    threshold: Decimal,
) -> Result<Answer, AllocError>
    requires { length goal.now ≡ model.now.n }
    ensures answer { IfOk result (λ answer. answer_lists answer
        ≡ shown_answer None [] (next_states (labelled_chain model.now) op threshold goal.now)) }
    ensures writable { IfOk result (λ answer. IsWritable (answer_lists answer)) }
{
    let must = must_list(alloc, goal)?;
    let may = may_list(alloc, goal)?;
    let states = check_next(alloc, model, &must, &may, op, threshold)?;
    shown_answer(alloc, &states, None, Vec::new(alloc))
}

/// The answer to `P{op threshold}[live U goal]`, with the bound of the plan.
pub(crate) fn until_answer<R: Threads + Sync, G: Gate>(
    rt: &R,
    alloc: Global,
    plan: Plan,
    op: Op,
    threshold: Decimal,
    options: &Options,
    gate: &G,
) -> Result<Answer, AllocError>
    requires sound { IsSoundPlan plan }
    requires cells { (plan.layers + 1) * length plan.frame.rows ≤ 8388608 }
    requires options { AreInRange options.now }
    requires state { options.now.state < length plan.frame.rows }
    ensures answer { IfOk result (λ answer. ShowsUntilAnswers plan options.now.until_decided (comparison_of op)
        (decimal_fraction threshold.c threshold.x) (answer_lists answer)) }
    ensures watched { IfOk result (λ answer. IsWatched options.now (answer_lists answer)) }
    ensures writable { IfOk result (λ answer. IsWritable (answer_lists answer)) }
{
    let last = plan.layers;
    let UntilStates { states, watched } = check_until(
        rt, alloc, plan, op, threshold, options, gate,
    )?;
    shown_answer(alloc, &states, Some(last), watched)
}

// The answer to a probability operator, by the answers at the states.
fn shown_answer(
    alloc: Global,
    states: &[StateAnswer],
    horizon: Option<u32>,
    watched: Vec<Printed>,
) -> Result<Answer, AllocError>
    ensures { IfOk result (λ answer. answer_lists answer ≡ shown_answer horizon watched.items states.now) }
{
    let mut verdicts = Vec::with_capacity(alloc, states.len())?;
    let mut brackets = Vec::with_capacity(alloc, states.len())?;
    for state in states {
        verdicts.push(state.verdict)?;
        brackets.push(state.bracket)?;
    }
    Ok(Answer {
        verdicts,
        shown: Some(Shown {
            horizon,
            watched,
            states: brackets,
        }),
    })
}
