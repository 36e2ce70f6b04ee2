// The answer to a formula over a model.
ghost use Rattle.std.specs.Prelude.{◌≡◌, ◌<◌, ◌≤◌, length, IfOk, IsTrue, not, Some, None};
ghost use Rattle.command_words.specs.Laws.{AreInRange};
ghost use Rattle.csl_syntax.specs.Tree.{tree_of, IsOver};
ghost use Rattle.model_core.specs.Model.{labelled_chain};
ghost use Rattle.report.specs.Answer.{answer_lists};
ghost use Rattle.report.specs.AnswerText.{IsWritable};
ghost use Rattle.nested_verdict.specs.EarlyAnswer.{IsAnswerTo};
ghost use Rattle.nested_verdict.specs.ExactAnswer.{IsExactAnswer};
ghost use Rattle.nested_verdict.specs.FormulaAnswer.{formula_answer, first_refusal};
ghost use Rattle.nested_verdict.specs.Operators.{is_connective};
ghost use Rattle.nested_verdict.specs.UnwatchedAnswer.{unwatched_answer};
ghost use Rattle.nested_verdict.specs.WatchedBrackets.{IsWatched, watching};

use crate::check_fault::CheckFault;
use crate::operator_answers::{next_answer, until_answer};
use crate::until_plan::until_plan;
use crate::verdict_lists::{all_alike, intersect, labelled, negate, unite};
use command_words::Options;
use csl_syntax::Formula;
use model_core::Model;
use outside::Gate;
use report::{Answer, Verdict};
use std::alloc::Global;
use std::thread::Threads;
use step_core::PlanError;

/// Answers the formula at each state of the model.
///
/// Operands are answered before their operator, the left one before the right one, each over three
/// values: what an inner operator leaves undecided stays open, and no verdict rests on a guess. An
/// operand's must set is its satisfied states, its may set those that aren't refuted. The first until
/// in this order that has no plan refuses the formula, and `Memory` comes for want of memory alone.
/// Brackets are shown where the formula itself is a probability operator, in units of `10^-12`. While
/// its own until is computed, `options.watch` brackets are taken of `options.state`; operators inside
/// others aren't watched.
///
/// With `options.until_decided` the run of an until may end as soon as the verdict of each state is
/// known. The verdicts are those of the whole run, and so are the brackets where a state is left
/// undecided; else they may be wider. Number of workers and gate change none of the rest. (Meaning and
/// algorithm: Baier, Haverkort, Hermanns, Katoen, Model-checking algorithms for continuous-time Markov
/// chains, 2003; three values: Kleene, Introduction to Metamathematics, 1952)
pub fn check<R: Threads + Sync, G: Gate>(
    rt: &R,
    alloc: Global,
    model: &Model,
    formula: &Formula,
    options: &Options,
    gate: &G,
) -> Result<Answer, CheckFault>
    requires over { IsOver (length model.now.names) (tree_of formula.now) }
    requires options { AreInRange options.now }
    requires state { options.now.state < model.now.n }
    ensures answer { IfOk result (λ answer. IsAnswerTo options.now
        (formula_answer (labelled_chain model.now) options.now (tree_of formula.now)) (unwatched_answer (answer_lists answer))) }
    ensures watched { IfOk result (λ answer. IsWatched options.now (answer_lists answer)) }
    ensures exact { IfOk result (λ answer. IsExactAnswer (labelled_chain model.now) options.now (tree_of formula.now) (answer_lists answer)) }
    ensures accepted { IfOk result (λ _. first_refusal (labelled_chain model.now) options.now (tree_of formula.now) ≡ None) }
    ensures refused { (refusal : PlanError) → result ≡ Err (CheckFault.Refused refusal)
        → first_refusal (labelled_chain model.now) options.now (tree_of formula.now) ≡ Some refusal }
    ensures writable { IfOk result (λ answer. IsWritable (answer_lists answer)) }
{
    match formula {
        Formula::Next(..) | Formula::Until(..) => {
            operator_answer(rt, alloc, model, formula, options, options.watch, gate)
        }
        Formula::Tt
        | Formula::Ff
        | Formula::Label(_)
        | Formula::Not(_)
        | Formula::And(_, _)
        | Formula::Or(_, _) => Ok(Answer {
            verdicts: verdicts(rt, alloc, model, formula, options, gate)?,
            shown: None,
        }),
    }
}

// The verdicts of a formula, in which nothing is watched. It calls itself for each part of a chain, of which a line has room for
// more than a thousand, so it keeps little on the stack.
#[cycle(formulas)]
fn verdicts<R: Threads + Sync, G: Gate>(
    rt: &R,
    alloc: Global,
    model: &Model,
    formula: &Formula,
    options: &Options,
    gate: &G,
) -> Result<Vec<Verdict>, CheckFault>
    requires over { IsOver (length model.now.names) (tree_of formula.now) }
    requires options { AreInRange options.now }
    requires state { options.now.state < model.now.n }
    ensures verdicts { IfOk result (λ verdicts. verdicts.items
        ≡ (formula_answer (labelled_chain model.now) options.now (tree_of formula.now)).verdicts) }
    ensures accepted { IfOk result (λ _. first_refusal (labelled_chain model.now) options.now (tree_of formula.now) ≡ None) }
    ensures refused { (refusal : PlanError) → result ≡ Err (CheckFault.Refused refusal)
        → first_refusal (labelled_chain model.now) options.now (tree_of formula.now) ≡ Some refusal }
{
    match formula {
        Formula::Tt => Ok(all_alike(alloc, model, true)?),
        Formula::Ff => Ok(all_alike(alloc, model, false)?),
        Formula::Label(label) => Ok(labelled(alloc, model, *label)?),
        Formula::Not(operand) => {
            let mut verdicts = verdicts(rt, alloc, model, operand, options, gate)?;
            negate(&mut verdicts);
            Ok(verdicts)
        }
        Formula::And(left, right) => {
            let mut both = verdicts(rt, alloc, model, left, options, gate)?;
            let right = verdicts(rt, alloc, model, right, options, gate)?;
            intersect(&mut both, &right);
            Ok(both)
        }
        Formula::Or(left, right) => {
            let mut either = verdicts(rt, alloc, model, left, options, gate)?;
            let right = verdicts(rt, alloc, model, right, options, gate)?;
            unite(&mut either, &right);
            Ok(either)
        }
        Formula::Next(..) | Formula::Until(..) => {
            Ok(operator_answer(rt, alloc, model, formula, options, 0, gate)?.verdicts)
        }
    }
}

// The answer to a probability operator, with so many brackets of the watched state, if it is an until.
#[cycle(formulas)]
#[inline(never)]
fn operator_answer<R: Threads + Sync, G: Gate>(
    rt: &R,
    alloc: Global,
    model: &Model,
    formula: &Formula,
    options: &Options,
    watch: u32,
    gate: &G,
) -> Result<Answer, CheckFault>
    requires over { IsOver (length model.now.names) (tree_of formula.now) }
    requires operator { IsTrue (not (is_connective (tree_of formula.now))) }
    requires options { AreInRange options.now }
    requires state { options.now.state < model.now.n }
    requires watch { watch ≤ 1000 }
    ensures answer { IfOk result (λ answer. IsAnswerTo options.now
        (formula_answer (labelled_chain model.now) options.now (tree_of formula.now)) (unwatched_answer (answer_lists answer))) }
    ensures watched { IfOk result (λ answer. IsWatched (watching options.now watch) (answer_lists answer)) }
    ensures exact { IfOk result (λ answer. IsExactAnswer (labelled_chain model.now) (watching options.now watch) (tree_of formula.now)
        (answer_lists answer)) }
    ensures accepted { IfOk result (λ _. first_refusal (labelled_chain model.now) options.now (tree_of formula.now) ≡ None) }
    ensures refused { (refusal : PlanError) → result ≡ Err (CheckFault.Refused refusal)
        → first_refusal (labelled_chain model.now) options.now (tree_of formula.now) ≡ Some refusal }
    ensures writable { IfOk result (λ answer. IsWritable (answer_lists answer)) }
{
    match formula {
        Formula::Next(op, threshold, operand) => {
            let goal = verdicts(rt, alloc, model, operand, options, gate)?;
            Ok(next_answer(alloc, model, &goal, *op, *threshold)?)
        }
        Formula::Until(op, threshold, left, bound, right) => {
            let live = verdicts(rt, alloc, model, left, options, gate)?;
            let goal = verdicts(rt, alloc, model, right, options, gate)?;
            let plan = until_plan(alloc, model, &live, &goal, bound, options)?;
            let options = watching(options, watch);
            Ok(until_answer(rt, alloc, plan, *op, *threshold, &options, gate)?)
        }
        Formula::Tt
        | Formula::Ff
        | Formula::Label(_)
        | Formula::Not(_)
        | Formula::And(_, _)
        | Formula::Or(_, _) => unreachable!(),
    }
}

// The options, with so many brackets of the watched state.
fn watching(options: &Options, watch: u32) -> Options
    ensures { result ≡ watching options.now watch }
{
    Options { watch, ..*options }
}
