//! The program: one command over the files, the input and the output of the system.
#![tactic(auto)]

mod lost;

use lost::Lost;
use outside::{DiskFiles, OpenGate, StdinSource, StdoutSink};
use session::{Fault, Status, serve};
use std::alloc::AllocError;
use std::io::{BufWriter, Read, Write};
use std::process::ExitCode;
use std::rt::{Env, Files};
use std::{env, io};

fn main(rt: HostRuntime) -> ExitCode {
    let mut files = DiskFiles::new(&rt);
    let mut formulas = StdinSource::new(rt.stdin());
    // Lines go to the system many at a time: of a large chain there are tens of thousands.
    let Ok(stdout) = BufWriter::with_capacity(rt.alloc(), 1 << 16, rt.stdout()) else {
        let _ = rt.eprintln(Lost::Memory);
        return ExitCode::from(Status::Memory.exit_code());
    };
    let mut out = StdoutSink::new(stdout);
    let status = match words(&rt) {
        Ok(words) => serve(
            &rt,
            rt.alloc(),
            &words,
            &mut files,
            &mut formulas,
            &mut out,
            &OpenGate,
        ),
        Err(AllocError) => Status::Memory,
    };
    // Where standard error can't be written either, the exit status alone tells.
    let _ = tell_loss(&rt, status, &files, &formulas, &out);
    ExitCode::from(status.exit_code())
}

// Where the answer was lost, says on standard error why.
fn tell_loss<F: Files + Drop, R: Read, W: Write>(
    rt: &impl Eprint,
    status: Status,
    files: &DiskFiles<F>,
    formulas: &StdinSource<R>,
    out: &StdoutSink<W>,
) -> io::Result<()> {
    match status {
        Status::Outside(Fault::Read) => match files.failure() {
            Some(failure) => rt.eprintln(Lost::of_file(failure)),
            None => rt.eprintln(Lost::Input(formulas.reason())),
        },
        Status::Outside(Fault::Write) => rt.eprintln(Lost::Output(out.reason())),
        Status::Memory => rt.eprintln(Lost::Memory),
        _ => Ok(()),
    }
}

// The program's name and the arguments. Where one of them is no text they are no command, so they count as none.
fn words(rt: &(impl Env + AllocGlobal)) -> Result<Vec<String>, AllocError> {
    match env::args(rt) {
        Ok(args) => args.collect(rt.alloc()),
        Err(fault) if fault.kind() == io::ErrorKind::OutOfMemory => Err(AllocError),
        Err(_) => Ok(Vec::new(rt.alloc())),
    }
}
