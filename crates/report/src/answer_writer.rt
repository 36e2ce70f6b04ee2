// The lines of an answer, written to a sink.
ghost use Rattle.std.specs.Prelude.{◌≡◌, Some, All, length, OnOk, IsErrOf};
ghost use Rattle.std.specs.Io.KnownBytes.{Appends};
ghost use Rattle.csl_syntax.specs.Tree.{tree_of, IsOver};
ghost use Rattle.outside.specs.Causes.{HasCause};
ghost use Rattle.outside.specs.Whole.{WritesFront};
ghost use Rattle.report.specs.Answer.{answer_lists, shown_lists};
ghost use Rattle.report.specs.AnswerText.{verdict_lines, state_lines, watch_lines, formula_line, horizon_line, answer_lines, answer_text, IsPrintable, ArePrintable, IsWritable};

use crate::answer::{Answer, Printed, Shown, Verdict};
use crate::answer_lines::{
    put_formula_line, put_horizon_line, put_state_line, put_verdict_line, put_watch_line,
};
use csl_syntax::{Formula, print};
use outside::{PutFault, Sink, write_whole};
use std::alloc::Global;
use text_lines::Name;

/// Writes the lines of an answered formula: its canonical text with the names of its labels, the
/// horizon and the watched brackets of an until, and the states in their order, numbered from 1.
///
/// Each line is handed to the sink as one piece, and what the sink leaves of it is handed over
/// again. `Failed` comes only where a write failed in this call, and `Memory` where memory ran out:
/// then a front of the text is written. The room of a line is taken once and used for all lines of
/// the states.
pub fn write_answer<K: Sink>(
    alloc: Global,
    formula: &Formula,
    labels: &[Name],
    answer: &Answer,
    out: &mut K,
) -> Result<(), PutFault>
    requires over { IsOver (length labels.now) (tree_of formula.now) }
    requires writable { IsWritable (answer_lists answer.now) }
    ensures ok { OnOk result (Appends (K.written out.old) (K.written out.new)
        (answer_text labels.now (tree_of formula.now) (answer_lists answer.now))) }
    ensures front { WritesFront (answer_text labels.now (tree_of formula.now) (answer_lists answer.now)) (K.written out.old)
        (K.written out.new) }
    ensures flushed { K.flushed out.new ≡ K.flushed out.old }
    ensures cause { HasCause (K.fault_count out.old) (K.fault_count out.new) (IsErrOf result PutFault.Failed) }
{
    let text = print(alloc, formula, labels)?;
    write_formula_line(alloc, &text, out)?;
    match &answer.shown {
        Some(shown) => write_shown(alloc, &answer.verdicts, shown, out),
        None => write_verdict_lines(alloc, &answer.verdicts, out),
    }
}

// The lines of a probability operator after that of the formula.
fn write_shown<K: Sink>(
    alloc: Global,
    verdicts: &[Verdict],
    shown: &Shown,
    out: &mut K,
) -> Result<(), PutFault>
    requires { ArePrintable (length verdicts.now) (shown_lists shown.now) }
    ensures ok { OnOk result (Appends (K.written out.old) (K.written out.new)
        (answer_lines verdicts.now (Some (shown_lists shown.now)))) }
    ensures front { WritesFront (answer_lines verdicts.now (Some (shown_lists shown.now))) (K.written out.old) (K.written out.new) }
    ensures flushed { K.flushed out.new ≡ K.flushed out.old }
    ensures cause { HasCause (K.fault_count out.old) (K.fault_count out.new) (IsErrOf result PutFault.Failed) }
{
    write_horizon_line(alloc, shown.horizon, out)?;
    write_watch_lines(alloc, &shown.watched, out)?;
    write_state_lines(alloc, verdicts, &shown.states, out)
}

fn write_formula_line<K: Sink>(alloc: Global, formula: &[u8], out: &mut K) -> Result<(), PutFault>
    ensures ok { OnOk result (Appends (K.written out.old) (K.written out.new) (formula_line formula.now)) }
    ensures front { WritesFront (formula_line formula.now) (K.written out.old) (K.written out.new) }
    ensures flushed { K.flushed out.new ≡ K.flushed out.old }
    ensures cause { HasCause (K.fault_count out.old) (K.fault_count out.new) (IsErrOf result PutFault.Failed) }
{
    let mut line = Vec::new(alloc);
    put_formula_line(&mut line, formula)?;
    write_whole(out, &line)
}

// The line of the horizon, where there is one.
fn write_horizon_line<K: Sink>(
    alloc: Global,
    horizon: Option<u32>,
    out: &mut K,
) -> Result<(), PutFault>
    ensures ok { OnOk result (Appends (K.written out.old) (K.written out.new) (horizon_line horizon)) }
    ensures front { WritesFront (horizon_line horizon) (K.written out.old) (K.written out.new) }
    ensures flushed { K.flushed out.new ≡ K.flushed out.old }
    ensures cause { HasCause (K.fault_count out.old) (K.fault_count out.new) (IsErrOf result PutFault.Failed) }
{
    let Some(last) = horizon else {
        return Ok(());
    };
    let mut line = Vec::new(alloc);
    put_horizon_line(&mut line, last)?;
    write_whole(out, &line)
}

fn write_watch_lines<K: Sink>(
    alloc: Global,
    watched: &[Printed],
    out: &mut K,
) -> Result<(), PutFault>
    requires { All IsPrintable watched.now }
    ensures ok { OnOk result (Appends (K.written out.old) (K.written out.new) (watch_lines 1 watched.now)) }
    ensures front { WritesFront (watch_lines 1 watched.now) (K.written out.old) (K.written out.new) }
    ensures flushed { K.flushed out.new ≡ K.flushed out.old }
    ensures cause { HasCause (K.fault_count out.old) (K.fault_count out.new) (IsErrOf result PutFault.Failed) }
{
    let mut line = Vec::new(alloc);
    for (i, bracket) in watched.iter().enumerate() {
        line.clear();
        put_watch_line(&mut line, i as u64 + 1, bracket)?;
        write_whole(out, &line)?;
    }
    Ok(())
}

fn write_verdict_lines<K: Sink>(
    alloc: Global,
    verdicts: &[Verdict],
    out: &mut K,
) -> Result<(), PutFault>
    ensures ok { OnOk result (Appends (K.written out.old) (K.written out.new) (verdict_lines 1 verdicts.now)) }
    ensures front { WritesFront (verdict_lines 1 verdicts.now) (K.written out.old) (K.written out.new) }
    ensures flushed { K.flushed out.new ≡ K.flushed out.old }
    ensures cause { HasCause (K.fault_count out.old) (K.fault_count out.new) (IsErrOf result PutFault.Failed) }
{
    let mut line = Vec::new(alloc);
    for (s, verdict) in verdicts.iter().enumerate() {
        line.clear();
        put_verdict_line(&mut line, s as u64 + 1, *verdict)?;
        write_whole(out, &line)?;
    }
    Ok(())
}

fn write_state_lines<K: Sink>(
    alloc: Global,
    verdicts: &[Verdict],
    brackets: &[Printed],
    out: &mut K,
) -> Result<(), PutFault>
    requires each { length brackets.now ≡ length verdicts.now }
    requires printable { All IsPrintable brackets.now }
    ensures ok { OnOk result (Appends (K.written out.old) (K.written out.new) (state_lines 1 verdicts.now brackets.now)) }
    ensures front { WritesFront (state_lines 1 verdicts.now brackets.now) (K.written out.old) (K.written out.new) }
    ensures flushed { K.flushed out.new ≡ K.flushed out.old }
    ensures cause { HasCause (K.fault_count out.old) (K.fault_count out.new) (IsErrOf result PutFault.Failed) }
{
    let mut line = Vec::new(alloc);
    for s in 0..verdicts.len() {
        line.clear();
        put_state_line(&mut line, s as u64 + 1, verdicts[s], &brackets[s])?;
        write_whole(out, &line)?;
    }
    Ok(())
}
