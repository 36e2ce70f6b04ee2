// The top call where nothing outside fails.
ghost use Rattle.std.specs.Prelude.{◌≡◌, [], Some, map, string_bytes};
ghost use Rattle.session.specs.Outcome.{Outcome, IsOutcome, outcome_status};
ghost use Rattle.session.specs.Laws.{AreNamed};
ghost use Rattle.session.specs.Serve.{IsMemoryOr, SaysAlike, Settles};

use crate::{Status, serve};
use outside::{OpenGate, SureFiles, SureSink, SureSource};
use std::alloc::Global;
use std::thread::Threads;

/// Serves over objects that don't fail and hold the files that the words name. The outcome's status is answered and its
/// whole text written, unless memory runs out.
pub fn serve_surely(
    rt: &(impl Threads + Sync),
    alloc: Global,
    words: &[String],
    files: &mut SureFiles,
    formulas: &mut SureSource,
    out: &mut SureSink,
) -> Status
    requires fresh { files.old.asked ≡ [] }
    requires named { AreNamed (map string_bytes words.now) files.old.files }
    ensures settled { IsMemoryOr result (Settles (map string_bytes words.now) (Some files.old.files) (Some formulas.old.left)
        (Some formulas.new.left)
        (Some out.old.written) (Some out.new.written) (Some out.new.flushed) result) }
    ensures told { (now : _) (outcome : Outcome) → IsOutcome (map string_bytes words.now) (Some files.old.files) (Some formulas.old.left)
        now outcome
        → IsMemoryOr result ((result ≡ outcome_status outcome) × SaysAlike (map string_bytes words.now) (Some files.old.files) (Some formulas.old.left)
        (Some formulas.new.left) out.old.written (Some out.new.written) outcome) }
{
    serve(rt, alloc, words, files, formulas, out, &OpenGate)
}
