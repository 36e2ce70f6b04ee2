// Lists of verdicts, one for each state, and what they say of sets of states.
ghost use Rattle.std.specs.Prelude.{◌≡◌, ◌<◌, length, map, IfOk};
ghost use Rattle.model_core.specs.Model.{has_label, labelled_chain};
ghost use Rattle.nested_verdict.specs.FormulaAnswer.{truth_verdicts};
ghost use Rattle.nested_verdict.specs.ThreeValues.{opposite_verdict, both_verdicts, either_verdict, is_sure, may_be, must_list, may_list, verdict_sets, opposites, both, either};

use model_core::Model;
use report::Verdict;
use std::alloc::{AllocError, Global};
use step_core::Sets;

/// At each state the verdict of the one truth value.
pub(crate) fn all_alike(
    alloc: Global,
    model: &Model,
    holds: bool,
) -> Result<Vec<Verdict>, AllocError>
    ensures { IfOk result (λ verdicts. verdicts.items ≡ truth_verdicts model.now.n (λ _. holds)) }
{
    vec![in alloc; Verdict::of(holds); model.n() as usize]
}

/// For each state whether it has the label.
pub(crate) fn labelled(alloc: Global, model: &Model, label: u32) -> Result<Vec<Verdict>, AllocError>
    requires { label < length model.now.names }
    ensures { IfOk result (λ verdicts. verdicts.items ≡ truth_verdicts model.now.n (has_label model.now.marks label)) }
{
    let mut verdicts = Vec::with_capacity(alloc, model.n() as usize)?;
    for s in 0..model.n() {
        verdicts.push(Verdict::of(model.has(s, label)))?;
    }
    Ok(verdicts)
}

/// Satisfied becomes refuted, and refuted satisfied.
pub(crate) fn negate(verdicts: &mut [Verdict])
    ensures { verdicts.new ≡ opposites verdicts.old }
{
    for verdict in verdicts {
        *verdict = opposite(*verdict);
    }
}

fn opposite(verdict: Verdict) -> Verdict
    ensures { result ≡ opposite_verdict verdict }
{
    match verdict {
        Verdict::Satisfied => Verdict::Refuted,
        Verdict::Refuted => Verdict::Satisfied,
        Verdict::Undecided => Verdict::Undecided,
    }
}

/// What both say: refuted where one is, satisfied where both are.
pub(crate) fn intersect(verdicts: &mut [Verdict], others: &[Verdict])
    requires { length verdicts.old ≡ length others.now }
    ensures { verdicts.new ≡ both verdicts.old others.now }
{
    for s in 0..others.len() {
        verdicts[s] = both_of(verdicts[s], others[s]);
    }
}

fn both_of(first: Verdict, second: Verdict) -> Verdict
    ensures { result ≡ both_verdicts first second }
{
    match (first, second) {
        (Verdict::Refuted, _) | (_, Verdict::Refuted) => Verdict::Refuted,
        (Verdict::Satisfied, Verdict::Satisfied) => Verdict::Satisfied,
        _ => Verdict::Undecided,
    }
}

/// What one of both says: satisfied where one is, refuted where both are.
pub(crate) fn unite(verdicts: &mut [Verdict], others: &[Verdict])
    requires { length verdicts.old ≡ length others.now }
    ensures { verdicts.new ≡ either verdicts.old others.now }
{
    for s in 0..others.len() {
        verdicts[s] = either_of(verdicts[s], others[s]);
    }
}

fn either_of(first: Verdict, second: Verdict) -> Verdict
    ensures { result ≡ either_verdict first second }
{
    match (first, second) {
        (Verdict::Satisfied, _) | (_, Verdict::Satisfied) => Verdict::Satisfied,
        (Verdict::Refuted, Verdict::Refuted) => Verdict::Refuted,
        _ => Verdict::Undecided,
    }
}

/// The states that surely satisfy a formula with these verdicts.
pub(crate) fn must_list(alloc: Global, verdicts: &[Verdict]) -> Result<Vec<bool>, AllocError>
    ensures { IfOk result (λ states. states.items ≡ must_list verdicts.now) }
{
    let mut states = Vec::with_capacity(alloc, verdicts.len())?;
    for verdict in verdicts {
        states.push(matches!(*verdict, Verdict::Satisfied))?;
    }
    Ok(states)
}

/// The states that may satisfy it: those that aren't refuted.
pub(crate) fn may_list(alloc: Global, verdicts: &[Verdict]) -> Result<Vec<bool>, AllocError>
    ensures { IfOk result (λ states. states.items ≡ may_list verdicts.now) }
{
    let mut states = Vec::with_capacity(alloc, verdicts.len())?;
    for verdict in verdicts {
        states.push(!matches!(*verdict, Verdict::Refuted))?;
    }
    Ok(states)
}

/// Both sets of an until, as far as its operands' verdicts tell them.
pub(crate) fn verdict_sets(
    alloc: Global,
    live: &[Verdict],
    goal: &[Verdict],
) -> Result<Sets, AllocError>
    ensures { IfOk result (λ sets. sets ≡ verdict_sets live.now goal.now) }
{
    Ok(Sets {
        goal_must: must_list(alloc, goal)?,
        goal_may: may_list(alloc, goal)?,
        live_must: must_list(alloc, live)?,
        live_may: may_list(alloc, live)?,
    })
}
