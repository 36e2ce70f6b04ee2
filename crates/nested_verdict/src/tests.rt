// Answers to formulas over small models, and what is asserted of them.
mod connectives;
mod early;
mod faults;
mod gates;
mod left_open;
mod refusals;
mod rows;
mod shown;

use super::*;
use command_words::Options;
use csl_syntax::{formulas_are_over_labels, parse};
use lab_reader::read_lab;
use model_core::Model;
use outside::{Gate, OpenGate};
use report::{Answer, Printed, Shown, Verdict};
use std::alloc::Global;
use std::process::Abort;
use std::test::Fail;
use std::thread::Threads;
use tra_reader::read_tra;

// A chain and its labels.
#[derive(Clone, Copy)]
struct Files<'a> {
    tra: &'a [u8],
    lab: &'a [u8],
}

// From state 1 the goal, state 2, is entered with the rate 1.
const STEP: Files<'static> = Files {
    tra: b"STATES 2\nTRANSITIONS 1\n1 2 1\n",
    lab: b"#DECLARATION\na\n#END\n2 a\n",
};

// The options where none is given.
const PLAIN: Options = Options {
    workers: 4,
    bits: 30,
    jumps: 512,
    watch: 0,
    state: 0,
    until_decided: false,
};

const SATISFIED: Verdict = Verdict::Satisfied;

const REFUTED: Verdict = Verdict::Refuted;

const UNDECIDED: Verdict = Verdict::Undecided;

const ZERO: Printed = Printed { low: 0, high: 0 };

const ONE: Printed = Printed {
    low: 1_000_000_000_000,
    high: 1_000_000_000_000,
};

// The answer to the line, or why there is none.
fn ask_gated<R: Threads + Sync + Abort, G: Gate>(
    rt: &R,
    alloc: Global,
    files: Files<'_>,
    line: &[u8],
    options: Options,
    gate: &G,
) -> Result<Result<Answer, CheckFault>, Fail> {
    let tra = read_tra(alloc, files.tra)?;
    let lab = read_lab(alloc, files.lab, tra.n())?;
    let model = Model::build(alloc, tra, lab, None)?;
    let formula = parse(alloc, line, model.labels())?;
    formulas_are_over_labels();
    assert!(rt; 1 <= options.workers && options.workers <= 64);
    assert!(rt; 8 <= options.bits && options.bits <= 48);
    assert!(rt; 1 <= options.jumps && options.jumps <= 16_384);
    assert!(rt; options.watch <= 1_000);
    assert!(rt; options.state < model.n());
    Ok(check(rt, alloc, &model, &formula, &options, gate))
}

fn ask<R: Threads + Sync + Abort>(
    rt: &R,
    alloc: Global,
    files: Files<'_>,
    line: &[u8],
) -> Result<Answer, Fail> {
    Ok(ask_gated(rt, alloc, files, line, PLAIN, &OpenGate)??)
}

// The verdicts, and what is shown.
fn opened(answer: Answer) -> Result<(Vec<Verdict>, Shown), Fail> {
    let Answer { verdicts, shown } = answer;
    let Some(shown) = shown else {
        return Err(Fail::from("no brackets"));
    };
    Ok((verdicts, shown))
}

// The line, which is no probability operator, has these verdicts.
fn check_verdicts<R: Threads + Sync + Abort>(
    rt: &R,
    alloc: Global,
    files: Files<'_>,
    line: &[u8],
    expected: &[Verdict],
) -> Result<(), Fail> {
    let answer = ask(rt, alloc, files, line)?;
    assert_eq!(rt; answer.verdicts.as_slice(), expected, "{line:?}");
    assert!(rt; answer.shown.is_none(), "{line:?}");
    Ok(())
}

// The line, which is a probability operator, has these verdicts, this horizon and these brackets, and nothing is watched.
fn check_brackets<R: Threads + Sync + Abort>(
    rt: &R,
    alloc: Global,
    files: Files<'_>,
    line: &[u8],
    horizon: Option<u32>,
    verdicts: &[Verdict],
    states: &[Printed],
) -> Result<(), Fail> {
    let answer = ask(rt, alloc, files, line)?;
    let (found, shown) = opened(answer)?;
    assert_eq!(rt; found.as_slice(), verdicts, "{line:?}");
    assert_eq!(rt; shown.horizon, horizon, "{line:?}");
    assert_eq!(rt; shown.states.as_slice(), states, "{line:?}");
    assert!(rt; shown.watched.is_empty(), "{line:?}");
    Ok(())
}
