// The brackets of all states of an until, by its plan.

ghost use Rattle.std.specs.Prelude.{◌≡◌, ◌+◌, ◌*◌, ◌<◌, ◌≤◌, ◌⊎◌, IfOk, length};
ghost use Rattle.command_words.specs.Laws.{AreInRange};
ghost use Rattle.csl_semantics.specs.Meaning.{comparison_of};
ghost use Rattle.ctmc_semantics.specs.Fraction.{decimal_fraction};
ghost use Rattle.nested_verdict.specs.UntilAnswer.{listed_words};
ghost use Rattle.nested_verdict.specs.UntilBrackets.{AllDecide, AreTakenOfState, AreUntilBrackets, EnclosesOneThread};
ghost use Rattle.reader_pass.specs.StateBrackets.{AreBrackets, AreOneThread};
ghost use Rattle.step_core.specs.SoundPlan.{IsSoundPlan};

use crate::threshold::Threshold;
use bound_grid::Board;
use column_workers::{RunEnd, Stopped, run, run_until};
use command_words::Options;
use csl_syntax::Op;
use decimal_text::Decimal;
use outside::Gate;
use reader_pass::read_states;
use std::alloc::{AllocError, Global};
use std::thread::Threads;
use step_core::{Bracket, Plan, Watch};
use window_engine::window_brackets;

/// The bracket of each state, and those that were taken of the watched state meanwhile.
#[derive(Debug, Drop)]
pub(crate) struct UntilBrackets {
    pub(crate) states: Vec<Bracket>,
    pub(crate) watched: Vec<Bracket>,
}

/// The brackets of all states.
///
/// Workers share a board. One worker whom nobody watches shares nothing, and keeps two layers; the
/// brackets are the same. Where `options.until_decided` is set, the run ends as soon as each bracket
/// decides the threshold, and takes a board for that.
pub(crate) fn until_brackets<R: Threads + Sync, G: Gate>(
    rt: &R,
    alloc: Global,
    plan: Plan,
    op: Op,
    threshold: Decimal,
    options: &Options,
    gate: &G,
) -> Result<UntilBrackets, AllocError>
    requires sound { IsSoundPlan plan }
    requires cells { (plan.layers + 1) * length plan.frame.rows ≤ 8388608 }
    requires options { AreInRange options.now }
    requires state { options.now.state < length plan.frame.rows }
    ensures states { IfOk result (λ b. AreUntilBrackets plan options.now.until_decided (comparison_of op)
        (decimal_fraction threshold.c threshold.x) b.states.items) }
    ensures watched { IfOk result (λ b. AreTakenOfState options.now.watch (listed_words b.states.items options.now.state) b.watched.items) }
{
    let watch = Watch {
        state: options.state,
        count: options.watch,
    };
    if options.until_decided {
        let until = Threshold {
            op,
            limit: threshold,
        };
        return early_brackets(rt, alloc, plan, options.workers, watch, gate, &until);
    }
    if options.workers > 1 || options.watch > 0 {
        return whole_brackets(rt, alloc, plan, options.workers, watch, gate);
    }
    let states = window_brackets(alloc, &plan)?;
    Ok(UntilBrackets {
        states,
        watched: Vec::new(alloc),
    })
}

// The brackets by workers that share a board, until all its words are final.
fn whole_brackets<R: Threads + Sync, G: Gate>(
    rt: &R,
    alloc: Global,
    plan: Plan,
    workers: u32,
    watch: Watch,
    gate: &G,
) -> Result<UntilBrackets, AllocError>
    requires sound { IsSoundPlan plan }
    requires cells { (plan.layers + 1) * length plan.frame.rows ≤ 8388608 }
    requires some { 1 ≤ workers }
    requires few { workers ≤ 64 }
    requires state { watch.state < length plan.frame.rows }
    requires few_brackets { watch.count ≤ 1000 }
    ensures states { IfOk result (λ b. AreOneThread plan b.states.items) }
    ensures watched { IfOk result (λ b. AreTakenOfState watch.count (listed_words b.states.items watch.state) b.watched.items) }
{
    let mut states = Vec::with_capacity(alloc, plan.frame.rows.len())?;
    let (board, pass) = Board::open(alloc, plan)?;
    let RunEnd { mut pass, watched } = run(rt, alloc, &board, pass, workers, watch, gate)?;
    read_states(&board, &mut pass, &mut states);
    Ok(UntilBrackets { states, watched })
}

// The brackets by workers that share a board, until each of them decides the threshold.
fn early_brackets<R: Threads + Sync, G: Gate>(
    rt: &R,
    alloc: Global,
    plan: Plan,
    workers: u32,
    watch: Watch,
    gate: &G,
    until: &Threshold,
) -> Result<UntilBrackets, AllocError>
    requires sound { IsSoundPlan plan }
    requires cells { (plan.layers + 1) * length plan.frame.rows ≤ 8388608 }
    requires some { 1 ≤ workers }
    requires few { workers ≤ 64 }
    requires state { watch.state < length plan.frame.rows }
    requires few_brackets { watch.count ≤ 1000 }
    ensures enclose { IfOk result (λ b. AreBrackets plan (EnclosesOneThread plan) b.states.items) }
    ensures ended { IfOk result (λ b. AllDecide (comparison_of until.now.op)
        (decimal_fraction until.now.limit.c until.now.limit.x) b.states.items ⊎ AreOneThread plan b.states.items) }
    ensures watched { IfOk result (λ b. AreTakenOfState watch.count (listed_words b.states.items watch.state) b.watched.items) }
{
    let (board, pass) = Board::open(alloc, plan)?;
    let Stopped {
        pass: _,
        brackets,
        watched,
    } = run_until(rt, alloc, &board, pass, workers, watch, gate, until)?;
    Ok(UntilBrackets {
        states: brackets,
        watched,
    })
}
