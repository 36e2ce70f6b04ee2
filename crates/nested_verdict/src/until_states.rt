// The answers of an until at each state, from its plan.
ghost use Rattle.std.specs.Prelude.{◌≡◌, ◌+◌, ◌*◌, ◌<◌, ◌≤◌, IfOk, All, length, map};
ghost use Rattle.command_words.specs.Laws.{AreInRange};
ghost use Rattle.csl_semantics.specs.Meaning.{comparison_of};
ghost use Rattle.ctmc_semantics.specs.Fraction.{decimal_fraction};
ghost use Rattle.step_core.specs.SoundPlan.{IsSoundPlan};
ghost use Rattle.report.specs.AnswerText.{IsPrintable};
ghost use Rattle.nested_verdict.specs.UntilAnswer.{bracket_answers, printed_brackets};
ghost use Rattle.nested_verdict.specs.UntilBrackets.{AreUntilAnswers};
ghost use Rattle.nested_verdict.specs.WatchedBrackets.{AreTakenOf};

use crate::state_answer::{StateAnswer, printed_words, words_answer};
use crate::until_brackets::until_brackets;
use command_words::Options;
use csl_syntax::Op;
use decimal_text::Decimal;
use outside::Gate;
use report::Printed;
use round_out::ONE;
use std::alloc::{AllocError, Global};
use std::thread::Threads;
use step_core::{Bracket, Plan};

/// The answer at each state, and the brackets of the watched state in the order in which they were
/// taken.
#[derive(Debug, Drop)]
pub(crate) struct UntilStates {
    pub(crate) states: Vec<StateAnswer>,
    pub(crate) watched: Vec<Printed>,
}

/// Answers `P{op threshold}[live U goal]`, with the bound of the plan, at each state.
pub(crate) fn check_until<R: Threads + Sync, G: Gate>(
    rt: &R,
    alloc: Global,
    plan: Plan,
    op: Op,
    threshold: Decimal,
    options: &Options,
    gate: &G,
) -> Result<UntilStates, AllocError>
    requires sound { IsSoundPlan plan }
    requires cells { (plan.layers + 1) * length plan.frame.rows ≤ 8388608 }
    requires options { AreInRange options.now }
    requires state { options.now.state < length plan.frame.rows }
    ensures answers { IfOk result (λ until. AreUntilAnswers plan options.now.until_decided (comparison_of op)
        (decimal_fraction threshold.c threshold.x) until.states.items) }
    ensures watched { IfOk result (λ until. AreTakenOf options.now (map (λ a. a.bracket) until.states.items) until.watched.items) }
    ensures printable { IfOk result (λ until. All (λ a. IsPrintable a.bracket) until.states.items) }
    ensures watched_printable { IfOk result (λ until. All IsPrintable until.watched.items) }
{
    let brackets = until_brackets(rt, alloc, plan, op, threshold, options, gate)?;
    let states = bracket_answers(alloc, &brackets.states, op, threshold)?;
    let watched = printed_brackets(alloc, &brackets.watched)?;
    Ok(UntilStates { states, watched })
}

// The answers at the states by their brackets.
fn bracket_answers(
    alloc: Global,
    brackets: &[Bracket],
    op: Op,
    threshold: Decimal,
) -> Result<Vec<StateAnswer>, AllocError>
    requires lower_words { All (λ b. b.lower ≤ ONE) brackets.now }
    requires upper_words { All (λ b. b.upper ≤ ONE) brackets.now }
    ensures answers { IfOk result (λ states. states.items
        ≡ bracket_answers brackets.now (comparison_of op) (decimal_fraction threshold.c threshold.x)) }
    ensures printable { IfOk result (λ states. All (λ a. IsPrintable a.bracket) states.items) }
{
    let mut answers = Vec::with_capacity(alloc, brackets.len())?;
    for s in 0..brackets.len() {
        answers.push(words_answer(brackets[s], op, threshold))?;
    }
    Ok(answers)
}

// The brackets as they are printed.
fn printed_brackets(alloc: Global, brackets: &[Bracket]) -> Result<Vec<Printed>, AllocError>
    requires lower_words { All (λ b. b.lower ≤ ONE) brackets.now }
    requires upper_words { All (λ b. b.upper ≤ ONE) brackets.now }
    ensures printed { IfOk result (λ printed. printed.items ≡ printed_brackets brackets.now) }
    ensures printable { IfOk result (λ printed. All IsPrintable printed.items) }
{
    let mut printed = Vec::with_capacity(alloc, brackets.len())?;
    for bracket in brackets {
        printed.push(printed_words(*bracket))?;
    }
    Ok(printed)
}
