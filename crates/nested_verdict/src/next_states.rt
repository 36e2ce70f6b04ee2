// The answers of a next operator at each state.
ghost use Rattle.std.specs.Prelude.{◌≡◌, ◌<◌, ◌≤◌, length, IfOk, All};
ghost use Rattle.ctmc_semantics.specs.Fraction.{decimal_fraction};
ghost use Rattle.ctmc_semantics.specs.Next.{next_probability, rate_into};
ghost use Rattle.ctmc_semantics.specs.Sets.{holds_at};
ghost use Rattle.csl_semantics.specs.Meaning.{comparison_of};
ghost use Rattle.model_core.specs.Transitions.{chain_of};
ghost use Rattle.nested_verdict.specs.NextAnswer.{next_answers};
ghost use Rattle.report.specs.AnswerText.{IsPrintable};

use crate::state_answer::{Ends, StateAnswer, ends_answer};
use csl_syntax::Op;
use decimal_text::Decimal;
use model_core::Model;
use std::alloc::{AllocError, Global};

/// Answers `P{op threshold}[X goal]` at each state, where it is listed which states surely are the
/// goal, and which may be.
pub(crate) fn check_next(
    alloc: Global,
    model: &Model,
    must: &[bool],
    may: &[bool],
    op: Op,
    threshold: Decimal,
) -> Result<Vec<StateAnswer>, AllocError>
    requires must { length must.now ≡ model.now.n }
    requires may { length may.now ≡ model.now.n }
    ensures answers { IfOk result (λ states. states.items ≡ next_answers (chain_of model.now.n model.now.rates) (holds_at must.now)
        (holds_at may.now) (comparison_of op) (decimal_fraction threshold.c threshold.x)) }
    ensures printable { IfOk result (λ states. All (λ a. IsPrintable a.bracket) states.items) }
{
    let n = model.n();
    let mut answers = Vec::with_capacity(alloc, n as usize)?;
    for s in 0..n {
        let ends = Ends {
            lower: rate_into(model, s, must),
            upper: rate_into(model, s, may),
            den: model.exit(s).max(1),
        };
        answers.push(ends_answer(ends, op, threshold))?;
    }
    Ok(answers)
}

// The rate from a state into the goal.
fn rate_into(model: &Model, s: u32, goal: &[bool]) -> u64
    requires state { s < model.now.n }
    requires states { length goal.now ≡ model.now.n }
    ensures value { result ≡ rate_into (chain_of model.now.n model.now.rates) (holds_at goal.now) s }
{
    let mut sum = 0;
    for transition in model.row(s) {
        if goal[transition.to as usize] {
            sum += transition.rate;
        }
    }
    sum
}
