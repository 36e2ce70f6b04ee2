// A run that is worked out by hand, and proved to give these very bytes.
ghost use Rattle.std.specs.Prelude.{◌≡◌, map, string_bytes, length, IfOk};
ghost use Rattle.outside.specs.Shelf.{pairs_of};
ghost use Rattle.session.specs.Serve.{IsMemoryOr};
ghost use Rattle.session.specs.WorkedExample.{example_words, example_files, example_answer};

use crate::{Status, serve_surely};
use outside::{SureFiles, SureSink, SureSource};
use std::alloc::{AllocError, Global};
use std::thread::Threads;

const TRA: &[u8] = b"STATES 2\nTRANSITIONS 1\n1 2 1\n";

const LAB: &[u8] = b"#DECLARATION\na\n#END\n2 a\n";

const FORMULAS: &[u8] = b"P{>=0.5}[X a]\nb\n";

/// Serves the worked example: over a chain of two states with one transition it is asked from where the next state has
/// a label, and then for a label that isn't there. The first line is answered and the second refused, so the status is
/// `Refused`, unless memory runs out, and then just these bytes are written, all of them flushed.
///
/// The only error is want of memory, before anything is served.
pub fn serve_example(
    rt: &(impl Threads + Sync),
    alloc: Global,
) -> Result<(Status, SureSink), AllocError>
    ensures status { IfOk result (λ served. IsMemoryOr served.0 (served.0 ≡ Status.Refused)) }
    ensures written { IfOk result (λ served. served.0 ≡ Status.Refused → served.1.written ≡ example_answer) }
    ensures flushed { IfOk result (λ served. served.0 ≡ Status.Refused → served.1.flushed ≡ length served.1.written) }
{
    let words = words(alloc)?;
    let mut files = SureFiles::new(files(alloc)?);
    let mut formulas = SureSource::new(FORMULAS.to_vec(alloc)?, 0);
    let mut out = SureSink::new(Vec::new(alloc), 0);
    let status = serve_surely(rt, alloc, &words, &mut files, &mut formulas, &mut out);
    Ok((status, out))
}

fn words(alloc: Global) -> Result<Vec<String>, AllocError>
    ensures { IfOk result (λ words. map string_bytes words.items ≡ example_words) }
{
    let program = String::from_str(alloc, "mrmc_any")?;
    let kind = String::from_str(alloc, "ctmc")?;
    let tra = String::from_str(alloc, "M.tra")?;
    let lab = String::from_str(alloc, "M.lab")?;
    Ok(vec![in alloc; program, kind, tra, lab]?)
}

fn files(alloc: Global) -> Result<Vec<(String, Vec<u8>)>, AllocError>
    ensures { IfOk result (λ files. pairs_of files.items ≡ example_files) }
{
    let tra = (String::from_str(alloc, "M.tra")?, TRA.to_vec(alloc)?);
    let lab = (String::from_str(alloc, "M.lab")?, LAB.to_vec(alloc)?);
    Ok(vec![in alloc; tra, lab]?)
}
