// The top call: all is read, then the replies are written and flushed.
ghost use Rattle.std.specs.Prelude.{◌≡◌, ℕ, ◌⊎◌, ◌++◌, List, Some, map, string_bytes, IfOk, IfSome, IsErrOf, IsSomeAnd, OnErr, OnOk};
ghost use Rattle.std.specs.Io.KnownBytes.{Keeps};
ghost use Rattle.command_words.specs.Words.{AreCommand};
ghost use Rattle.outside.specs.Causes.{HasCause};
ghost use Rattle.outside.specs.Shelf.{Pair};
ghost use Rattle.outside.specs.Whole.{AllFlushed};
ghost use Rattle.session.specs.Command.{Say};
ghost use Rattle.session.specs.ModelFiles.{IsFileFaulty};
ghost use Rattle.session.specs.Outcome.{Outcome, IsOutcome, outcome_status};
ghost use Rattle.session.specs.ReadCause.{HasReadCause, IsUntouched};
ghost use Rattle.session.specs.Reading.{IsReady, Writes, WritesFrontOf};
ghost use Rattle.session.specs.Serve.{Settles, AnswersExactly, IsCutShort, AsksBy, IsUsageOrLost, IsAnswering, IsLostOr, IsLost, SaysAlike};

use crate::reading::{Prepared, Stop, prepare};
use crate::replies::write_replies;
use crate::{Fault, Status};
use outside::{Failed, Files, Gate, PutFault, Sink, Source};
use report::{write_fault, write_refusal};
use std::alloc::Global;
use std::thread::Threads;

const USAGE: &[u8] =
    b"usage: mrmc_any (ctmc M.tra M.lab | cmrm M.tra M.lab M.rew) [--workers 1..64] [--bits 8..48] [--jumps 1..16384] [--watch 0..1000] [--state 1..65536] [--until-decided]";

const FORMULAS_LONG: &[u8] = b"refused FormulasLong";

/// Does one command: all that the program does.
///
/// The words are read first, then the files that they name, each before the next is taken, then the formulas to their
/// end. Then each line of the formulas is answered or refused, and its reply written, one piece a line of text, before
/// the next is looked at; blank lines are skipped, and a line whose only word is `quit` ends them. At the end the output
/// is flushed. The words are the program's name and the arguments.
pub fn serve<F: Files, S: Source, K: Sink, G: Gate>(
    rt: &(impl Threads + Sync),
    alloc: Global,
    words: &[String],
    files: &mut F,
    formulas: &mut S,
    out: &mut K,
    gate: &G,
) -> Status
    // The headline: each line of the formulas has a reply, and what is printed is exact.
    ensures exact { IsAnswering result → AnswersExactly (map string_bytes words.now) (F.files files.old) (S.left formulas.old)
        (S.left formulas.new) (K.written out.old) (K.written out.new) result }

    // A status that isn't a loss has its reason, and its text is written and flushed.
    ensures reason { IsLostOr result (Settles (map string_bytes words.now) (F.files files.old) (S.left formulas.old) (S.left formulas.new)
        (K.written out.old) (K.written out.new) (K.flushed out.new) result) }
    ensures usage { result ≡ Status.Usage → (¬ AreCommand (map string_bytes words.now)) × Keeps (S.left formulas.old)
        (S.left formulas.new) }
    ensures model { (fault : _) → result ≡ Status.Model fault → Say (map string_bytes words.now) (λ command. IsSomeAnd command (λ c.
        IsFileFaulty c (F.files files.old) fault × Keeps (S.left formulas.old) (S.left formulas.new))) }

    // Where all is told, the status and the text are a function of the words, the files and the formulas, but for the brackets
    // of the watched state, and those of an until whose run may have ended early.
    ensures told { (pairs : List Pair) (left written : List ℕ) (now : _) (outcome : Outcome) → F.files files.old ≡ Some pairs → S.left
        formulas.old ≡ Some left
        → K.written out.old ≡ Some written → IsOutcome (map string_bytes words.now) (Some pairs) (Some left) now outcome
        → IsLostOr result ((result ≡ outcome_status outcome) × SaysAlike (map string_bytes words.now) (Some pairs) (Some left)
        (S.left formulas.new) written (K.written out.new) outcome) }

    // Words that are no command are never anything else.
    ensures only_usage { ¬ AreCommand (map string_bytes words.now) → IsUsageOrLost result }

    // A fault that is told has its cause, none is hidden, and a call that failed isn't made again.
    ensures read { Say (map string_bytes words.now) (λ command. HasReadCause command (F.files files.old) (F.fault_count files.old)
        (F.fault_count files.new) (S.fault_count formulas.old) (S.fault_count formulas.new) (result ≡ Status.Outside Fault.Read)) }
    ensures write { HasCause (K.fault_count out.old) (K.fault_count out.new) (result ≡ Status.Outside Fault.Write) }

    // Where the answer is lost, a front of its text is written, and nothing where reading failed.
    ensures unwritten { result ≡ Status.Outside Fault.Read → Keeps (K.written out.old) (K.written out.new) }
    ensures cut_short { result ≡ Status.Outside Fault.Write → IsCutShort (map string_bytes words.now) (F.files files.old)
        (S.left formulas.old) (S.left formulas.new) (K.written out.old) (K.written out.new) }
    ensures memory { result ≡ Status.Memory → (Keeps (K.written out.old) (K.written out.new)
        ⊎ IsCutShort (map string_bytes words.now) (F.files files.old) (S.left formulas.old) (S.left formulas.new) (K.written out.old)
        (K.written out.new)) }

    ensures unflushed { IsLost result → K.flushed out.new ≡ K.flushed out.old }

    // Nothing is taken of the formulas unless the files stand for a model.
    ensures untouched { Say (map string_bytes words.now) (λ command. IsUntouched command (F.files files.old) (S.left formulas.old)
        (S.left formulas.new)) }

    // The files stay, and only what the status needs is asked for.
    ensures files { F.files files.new ≡ F.files files.old }
    ensures asked { IfSome (F.files files.old) (λ _. Say (map string_bytes words.now) (λ command. AsksBy result command
        (F.asked files.old) (F.asked files.new))) }
{
    let prepared = match prepare(alloc, words, files, formulas) {
        Ok(prepared) => prepared,
        Err(Stop::Read) => return Status::Outside(Fault::Read),
        Err(Stop::Memory) => return Status::Memory,
    };
    match say(rt, alloc, out, &prepared, gate) {
        Ok(status) => status,
        Err(PutFault::Failed) => Status::Outside(Fault::Write),
        Err(PutFault::Memory) => Status::Memory,
    }
}

// Writes and flushes what is said of what was read, and tells the status.
fn say<R: Threads + Sync, K: Sink, G: Gate>(
    rt: &R,
    alloc: Global,
    out: &mut K,
    prepared: &Prepared,
    gate: &G,
) -> Result<Status, PutFault>
    requires { IsReady prepared.now }
    ensures written { IfOk result (Writes prepared.now (K.written out.old) (K.written out.new)) }
    ensures flushed { OnOk result (AllFlushed (K.written out.new) (K.flushed out.new)) }
    ensures front { WritesFrontOf prepared.now (K.written out.old) (K.written out.new) }
    ensures unflushed { OnErr result (K.flushed out.new ≡ K.flushed out.old) }
    ensures cause { HasCause (K.fault_count out.old) (K.fault_count out.new) (IsErrOf result PutFault.Failed) }
{
    let status = write_said(rt, alloc, out, prepared, gate)?;
    match out.flush() {
        Ok(()) => Ok(status),
        Err(Failed) => Err(PutFault::Failed),
    }
}

fn write_said<R: Threads + Sync, K: Sink, G: Gate>(
    rt: &R,
    alloc: Global,
    out: &mut K,
    prepared: &Prepared,
    gate: &G,
) -> Result<Status, PutFault>
    requires { IsReady prepared.now }
    ensures written { IfOk result (Writes prepared.now (K.written out.old) (K.written out.new)) }
    ensures front { WritesFrontOf prepared.now (K.written out.old) (K.written out.new) }
    ensures flushed { K.flushed out.new ≡ K.flushed out.old }
    ensures cause { HasCause (K.fault_count out.old) (K.fault_count out.new) (IsErrOf result PutFault.Failed) }
{
    match prepared {
        Prepared::Usage => {
            write_refusal(alloc, USAGE, out)?;
            Ok(Status::Usage)
        }
        Prepared::Faulty(fault) => {
            write_fault(alloc, *fault, out)?;
            Ok(Status::Model(*fault))
        }
        Prepared::FormulasLong => {
            write_refusal(alloc, FORMULAS_LONG, out)?;
            Ok(Status::Refused)
        }
        Prepared::Lines(input) => {
            let all_answered = write_replies(rt, alloc, input, out, gate)?;
            Ok(if all_answered {
                Status::Done
            } else {
                Status::Refused
            })
        }
    }
}
