// One run of the top call over objects in memory, and what is asserted of it.
use super::*;
use outside::{
    Files, Gate, MemFiles, MemSink, MemSource, OpenGate, Sink, Source, SureFiles, SureSink,
    SureSource,
};
use std::alloc::{AllocError, Global};
use std::process::Abort;
use std::str;
use std::test::Fail;
use std::thread::Threads;

mod early;
mod engine;
mod failing;
mod files;
mod limits;
mod line_faults;
mod lines;
mod nested;
mod next;
mod one_layer;
mod options;
mod reach;
mod rewards;
mod truths;
mod unbounded;
mod until;
mod watching;
mod workers;

// Three states; from the first the second is next with the rate 3, and the third with the rate 7.
const TRA: &[u8] = b"STATES 3\nTRANSITIONS 2\n1 2 3\n1 3 7\n";

// From state 1 the goal, state 2, is entered with the rate 1.
const STEP: &[u8] = b"STATES 2\nTRANSITIONS 1\n1 2 1\n";

const STILL: &[u8] = b"STATES 2\nTRANSITIONS 0\n";

// Four states: from the first the second is reached straight, or over the third; nothing leads to the fourth.
const FOUR: &[u8] = b"STATES 4\nTRANSITIONS 4\n1 2 2\n1 3 1\n3 2 1\n2 4 1\n";

const LAB: &[u8] = b"#DECLARATION\na\n#END\n2 a\n";

const TWO_LABELS: &[u8] = b"#DECLARATION\na b\n#END\n2 a\n3 b\n";

const FORMULA: &[u8] = b"P{>=0.3}[X a]\n";

const ANSWER: &str =
    "formula P{>=0.3}[X a]\n1 satisfied 0.300000000000 0.300000000000\n2 refuted 0.000000000000 0.000000000000\n3 refuted 0.000000000000 0.000000000000\n";

// The answer to the formula `a` over two states.
const LABEL: &str = "formula a\n1 refuted\n2 satisfied\n";

const CTMC: &[&str] = &["mrmc_any", "ctmc", "M.tra", "M.lab"];

const CMRM: &[&str] = &["mrmc_any", "cmrm", "M.tra", "M.lab", "M.rew"];

const USAGE: &str =
    "usage: mrmc_any (ctmc M.tra M.lab | cmrm M.tra M.lab M.rew) [--workers 1..64] [--bits 8..48] [--jumps 1..16384] [--watch 0..1000] [--state 1..65536] [--until-decided]\n";

// What a run is given.
#[derive(Clone, Copy)]
struct Input<'a> {
    words: &'a [&'a str],
    tra: &'a [u8],
    lab: &'a [u8],
    rew: &'a [u8],
    formulas: &'a [u8],
}

impl<'a> Input<'a> {
    // Formulas over a chain and its labels.
    fn ctmc(tra: &'a [u8], lab: &'a [u8], formulas: &'a [u8]) -> Input<'a> {
        Input {
            words: CTMC,
            tra,
            lab,
            rew: b"",
            formulas,
        }
    }

    fn words(&self, alloc: Global) -> Result<Vec<String>, AllocError> {
        let mut words = Vec::new(alloc);
        for word in self.words {
            words.push(String::from_str(alloc, word)?)?;
        }
        Ok(words)
    }

    fn files(&self, alloc: Global) -> Result<Vec<(String, Vec<u8>)>, AllocError> {
        let mut files = Vec::new(alloc);
        for (name, bytes) in [
            ("M.tra", self.tra),
            ("M.lab", self.lab),
            ("M.rew", self.rew),
        ] {
            files.push((String::from_str(alloc, name)?, bytes.to_vec(alloc)?))?;
        }
        Ok(files)
    }
}

// Serves the input over objects that don't fail, each call of which moves at most `cut` bytes, or all where that is 0.
fn serve_input(
    rt: &(impl Threads + Sync + AllocGlobal),
    input: Input<'_>,
    cut: usize,
) -> Result<(Status, Vec<u8>), Fail> {
    serve_gated(rt, input, cut, &OpenGate)
}

// The same, with a gate.
fn serve_gated<G: Gate>(
    rt: &(impl Threads + Sync + AllocGlobal),
    input: Input<'_>,
    cut: usize,
    gate: &G,
) -> Result<(Status, Vec<u8>), Fail> {
    let alloc = rt.alloc();
    let words = input.words(alloc)?;
    let mut files = SureFiles::new(input.files(alloc)?);
    let mut formulas = SureSource::new(input.formulas.to_vec(alloc)?, cut);
    let mut out = SureSink::new(Vec::new(alloc), cut);
    let status = serve(rt, alloc, &words, &mut files, &mut formulas, &mut out, gate);
    Ok((status, out.bytes().to_vec(alloc)?))
}

// Asserts the status and the text of the input; where a text differs, both are printed.
fn expect(
    rt: &(impl Threads + Sync + AllocGlobal + Abort),
    input: Input<'_>,
    status: Status,
    text: &str,
) -> Result<(), Fail> {
    let (found, bytes) = serve_input(rt, input, 0)?;
    let found_text = str::from_utf8(&bytes)?;
    assert_eq!(rt; found_text, text);
    assert_eq!(rt; found, status, "at {text:?}");
    Ok(())
}

// Asserts that the input is answered, with a text that begins so; where it doesn't, both are printed.
fn expect_front(
    rt: &(impl Threads + Sync + AllocGlobal + Abort),
    input: Input<'_>,
    front: &str,
) -> Result<(), Fail> {
    let (found, bytes) = serve_input(rt, input, 0)?;
    let found_text = str::from_utf8(&bytes)?;
    assert!(rt;
        found_text.starts_with(front),
        "{found_text:?} doesn't begin with {front:?}"
    );
    assert_eq!(rt; found, Status::Done, "at {front:?}");
    Ok(())
}

// The numbers of the calls of each object that fail; 0 for none.
#[derive(Clone, Copy, Debug)]
struct FailingCalls {
    taking: u64,
    reading: u64,
    writing: u64,
}

// What a run over objects that may fail did.
#[derive(Drop)]
struct Course {
    status: Status,
    written: Vec<u8>,
    faults: [u64; 3],
}

// Serves the input over objects of which some calls fail.
fn serve_failing(
    rt: &(impl Threads + Sync + AllocGlobal),
    input: Input<'_>,
    fail: FailingCalls,
) -> Result<Course, Fail> {
    let alloc = rt.alloc();
    let words = input.words(alloc)?;
    let mut files = MemFiles::new(input.files(alloc)?, vec![in alloc; fail.taking]?);
    let mut formulas = MemSource::new(
        input.formulas.to_vec(alloc)?,
        vec![in alloc; fail.reading]?,
        0,
    );
    let mut out = MemSink::new(Vec::new(alloc), vec![in alloc; fail.writing]?, 0);
    let status = serve(
        rt,
        alloc,
        &words,
        &mut files,
        &mut formulas,
        &mut out,
        &OpenGate,
    );
    Ok(Course {
        status,
        written: out.bytes().to_vec(alloc)?,
        faults: [files.faults(), formulas.faults(), out.faults()],
    })
}
