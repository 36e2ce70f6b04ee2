// The reply to a line of the formulas.
ghost use Rattle.std.specs.Prelude.{◌≡◌, ◌<◌, ℕ, List, IfOk, OnOk, IsErrOf};
ghost use Rattle.std.specs.Io.KnownBytes.{Appends};
ghost use Rattle.command_words.specs.Laws.{AreInRange};
ghost use Rattle.model_core.specs.Model.{labelled_chain};
ghost use Rattle.outside.specs.Causes.{HasCause};
ghost use Rattle.outside.specs.Whole.{WritesFront};
ghost use Rattle.report.specs.RefusalText.{refusal_line, refused_text};
ghost use Rattle.session.specs.LineReply.{IsLineReply, is_answer, reply_text};
ghost use Rattle.session.specs.Reading.{line_reply_of, IsReplyWritable};

use command_words::Options;
use csl_syntax::{Formula, FormulaFault, ParseFault, parse};
use model_core::Model;
use nested_verdict::{CheckFault, check};
use outside::{Gate, PutFault, Sink};
use report::{
    Answer, put_formula_fault, put_plan_refusal, put_refused, write_answer, write_refusal,
};
use std::alloc::{AllocError, Global};
use std::thread::Threads;
use step_core::PlanError;
use text_lines::Name;

/// The reply to a line of the formulas.
#[derive(Debug, Drop)]
pub(crate) enum Reply {
    /// The formula, and its answer.
    Answered(Formula, Answer),
    /// The line is no formula.
    Faulty(FormulaFault),
    /// An until of the formula has no plan.
    Refused(PlanError),
}

impl Reply {
    /// Whether the line is answered.
    pub(crate) fn is_answer(&self) -> bool
        ensures { (names : List (List ℕ)) → result ≡ is_answer (line_reply_of names self.now) }
    {
        matches!(self, Reply::Answered(..))
    }
}

/// The reply to a line, over the model. The only error is want of memory.
pub(crate) fn reply_to<R: Threads + Sync, G: Gate>(
    rt: &R,
    alloc: Global,
    model: &Model,
    options: &Options,
    line: &[u8],
    gate: &G,
) -> Result<Reply, AllocError>
    requires options { AreInRange options.now }
    requires state { options.now.state < model.now.n }
    ensures reply { IfOk result (λ reply. IsLineReply (labelled_chain model.now) options.now line.now (line_reply_of model.now.names reply)) }
    ensures writable { IfOk result (IsReplyWritable model.now.names) }
{
    let formula = match parse(alloc, line, model.labels()) {
        Ok(formula) => formula,
        Err(ParseFault::At(fault)) => return Ok(Reply::Faulty(fault)),
        Err(ParseFault::Memory) => return Err(AllocError),
    };
    let answer = match check(rt, alloc, model, &formula, options, gate) {
        Ok(answer) => answer,
        Err(CheckFault::Refused(refusal)) => return Ok(Reply::Refused(refusal)),
        Err(CheckFault::Memory) => return Err(AllocError),
    };
    Ok(Reply::Answered(formula, answer))
}

/// Writes the reply to the line of this number, each of its lines as one piece.
pub(crate) fn write_reply<K: Sink>(
    alloc: Global,
    number: u64,
    reply: &Reply,
    labels: &[Name],
    out: &mut K,
) -> Result<(), PutFault>
    requires { IsReplyWritable labels.now reply.now }
    ensures ok { OnOk result (Appends (K.written out.old) (K.written out.new)
        (reply_text number (line_reply_of labels.now reply.now))) }
    ensures front { WritesFront (reply_text number (line_reply_of labels.now reply.now)) (K.written out.old) (K.written out.new) }
    ensures flushed { K.flushed out.new ≡ K.flushed out.old }
    ensures cause { HasCause (K.fault_count out.old) (K.fault_count out.new) (IsErrOf result PutFault.Failed) }
{
    let mut why = Vec::new(alloc);
    match reply {
        Reply::Answered(formula, answer) => {
            return write_answer(alloc, formula, labels, answer, out);
        }
        Reply::Faulty(fault) => put_formula_fault(&mut why, *fault)?,
        Reply::Refused(refusal) => put_plan_refusal(&mut why, *refusal)?,
    }
    write_refused(alloc, number, &why, out)
}

// The line that refuses the formula of the line of this number.
fn write_refused<K: Sink>(
    alloc: Global,
    number: u64,
    why: &[u8],
    out: &mut K,
) -> Result<(), PutFault>
    ensures ok { OnOk result (Appends (K.written out.old) (K.written out.new) (refusal_line (refused_text number why.now))) }
    ensures front { WritesFront (refusal_line (refused_text number why.now)) (K.written out.old) (K.written out.new) }
    ensures flushed { K.flushed out.new ≡ K.flushed out.old }
    ensures cause { HasCause (K.fault_count out.old) (K.fault_count out.new) (IsErrOf result PutFault.Failed) }
{
    let mut text = Vec::new(alloc);
    put_refused(&mut text, number, why)?;
    write_refusal(alloc, &text, out)
}
