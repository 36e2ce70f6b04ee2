use crate::{
    DiskFiles, FILE_LIMIT, Failed, Files, Gate, MemFiles, MemSink, MemSource, OpenGate, PutFault,
    Sink, Source, StdinSource, StdoutSink, SureFiles, SureSink, SureSource, TakeFault, read_whole,
    write_whole,
};
use std::alloc::{AllocError, Global};
use std::io::{ErrorKind, Read, Write};
use std::test::Fail;
use std::{fs, io};

// A reader that gives a byte, and then fails.
#[derive(Drop)]
struct BreaksOff {
    gave: bool,
}

impl Read for BreaksOff {
    fn read(&mut self, buf: &mut [u8]) -> io::Result<usize> {
        if self.gave || buf.is_empty() {
            return Err(ErrorKind::Other.into());
        }
        self.gave = true;
        buf[0] = b'x';
        Ok(1)
    }
}

// A writer that takes nothing and fails to flush.
#[derive(Drop)]
struct Full;

impl Write for Full {
    fn write(&mut self, _buf: &[u8]) -> io::Result<usize> {
        Ok(0)
    }

    fn flush(&mut self) -> io::Result<()> {
        Err(ErrorKind::Other.into())
    }
}

// A writer that fails to write.
#[derive(Drop)]
struct Closed;

impl Write for Closed {
    fn write(&mut self, _buf: &[u8]) -> io::Result<usize> {
        Err(ErrorKind::BrokenPipe.into())
    }

    fn flush(&mut self) -> io::Result<()> {
        Ok(())
    }
}

// A reader whose first call is interrupted, and which then gives a byte.
#[derive(Drop)]
struct Stutters {
    calls: u32,
}

impl Read for Stutters {
    fn read(&mut self, buf: &mut [u8]) -> io::Result<usize> {
        self.calls = self.calls.saturating_add(1);
        if self.calls == 1 || buf.is_empty() {
            return Err(ErrorKind::Interrupted.into());
        }
        if self.calls > 2 {
            return Ok(0);
        }
        buf[0] = b'x';
        Ok(1)
    }
}

// A writer whose first call fails, and which then takes all.
#[derive(Drop)]
struct Hiccups {
    calls: u32,
}

impl Write for Hiccups {
    fn write(&mut self, buf: &[u8]) -> io::Result<usize> {
        self.calls = self.calls.saturating_add(1);
        if self.calls == 1 {
            return Err(ErrorKind::BrokenPipe.into());
        }
        Ok(buf.len())
    }

    fn flush(&mut self) -> io::Result<()> {
        self.calls = self.calls.saturating_add(1);
        if self.calls == 1 {
            return Err(ErrorKind::Interrupted.into());
        }
        Ok(())
    }
}

fn two_files(alloc: Global) -> Result<Vec<(String, Vec<u8>)>, AllocError> {
    let mut files = Vec::new(alloc);
    files.push((String::from_str(alloc, "a")?, b"one".to_vec(alloc)?))?;
    files.push((String::from_str(alloc, "b")?, b"two".to_vec(alloc)?))?;
    Ok(files)
}

#[test]
fn files_in_memory(rt: HostRuntime) -> Result<(), Fail> {
    let alloc = rt.alloc();
    let mut files = MemFiles::new(two_files(alloc)?, [2].to_vec(alloc)?);
    assert_eq!(rt; files.take(alloc, "b")?.as_slice(), b"two".as_slice());
    assert_eq!(rt;
        files.take(alloc, "b"),
        Err(TakeFault::Failed),
        "the second call is listed"
    );
    assert_eq!(rt;
        files.take(alloc, "c"),
        Err(TakeFault::Failed),
        "there is no such file"
    );
    assert_eq!(rt; files.faults(), 2);
    let mut files = SureFiles::new(two_files(alloc)?);
    assert_eq!(rt; files.take(alloc, "a")?.as_slice(), b"one".as_slice());
    assert_eq!(rt;
        files.take(alloc, "c"),
        Err(TakeFault::Failed),
        "there is no such file"
    );
    assert_eq!(rt; files.faults(), 1);
    Ok(())
}

#[test]
fn sources_in_memory(rt: HostRuntime) -> Result<(), Fail> {
    let alloc = rt.alloc();
    let mut source = MemSource::new(b"abc".to_vec(alloc)?, [2].to_vec(alloc)?, 2);
    let mut buf = [b'-'; 4];
    assert_eq!(rt; source.read(&mut buf), Ok(2), "cut");
    assert_eq!(rt;
        source.read(&mut buf),
        Err(Failed),
        "the second call is listed"
    );
    assert_eq!(rt; buf, *b"ab--");
    assert_eq!(rt;
        read_whole(alloc, &mut source, 1)?.as_slice(),
        b"c".as_slice()
    );
    assert_eq!(rt; source.faults(), 1);
    let mut source = SureSource::new(b"abc".to_vec(alloc)?, 0);
    assert_eq!(rt; source.read(&mut buf[..1]), Ok(1));
    assert_eq!(rt; read_whole(alloc, &mut source, 1), Err(TakeFault::TooBig));
    assert_eq!(rt; source.faults(), 0);
    Ok(())
}

#[test]
fn sinks_in_memory(rt: HostRuntime) -> Result<(), Fail> {
    let alloc = rt.alloc();
    let mut sink = MemSink::new(b">".to_vec(alloc)?, [2].to_vec(alloc)?, 2);
    assert_eq!(rt; sink.write(b"abc"), Ok(2), "cut");
    assert_eq!(rt; sink.flush(), Err(Failed), "the second call is listed");
    assert_eq!(rt; write_whole(&mut sink, b"cde"), Ok(()));
    assert_eq!(rt; sink.flush(), Ok(()));
    assert_eq!(rt; sink.bytes(), b">abcde".as_slice());
    assert_eq!(rt; sink.faults(), 1);
    let mut sink = SureSink::new(b">".to_vec(alloc)?, 1);
    assert_eq!(rt; write_whole(&mut sink, b"ab"), Ok(()));
    assert_eq!(rt; sink.flush(), Ok(()));
    assert_eq!(rt; sink.bytes(), b">ab".as_slice());
    assert_eq!(rt; sink.faults(), 0);
    Ok(())
}

#[test]
fn streams_that_fail_are_counted(rt: HostRuntime) {
    let mut source = StdinSource::new(BreaksOff { gave: false });
    let answer = read_whole(rt.alloc(), &mut source, 9);
    assert_eq!(rt; answer, Err(TakeFault::Failed));
    assert_eq!(rt; source.faults(), 1);
    let mut sink = StdoutSink::new(Full);
    assert_eq!(rt;
        sink.write(b"abc"),
        Err(PutFault::Failed),
        "it takes nothing"
    );
    assert_eq!(rt; sink.flush(), Err(Failed));
    assert_eq!(rt; sink.faults(), 2);
    let mut sink = StdoutSink::new(Closed);
    assert_eq!(rt; sink.flush(), Ok(()));
    assert_eq!(rt; write_whole(&mut sink, b"abc"), Err(PutFault::Failed));
    assert_eq!(rt; sink.faults(), 1);
}

// The fault is told at the call that failed, and the call isn't made again.
#[test]
fn a_stream_that_fails_once_is_not_asked_again(rt: HostRuntime) -> Result<(), Fail> {
    let alloc = rt.alloc();
    let mut source = StdinSource::new(Stutters { calls: 0 });
    assert!(rt; source.reason().is_none());
    assert_eq!(rt;
        read_whole(alloc, &mut source, 9),
        Err(TakeFault::Failed),
        "the first call is interrupted"
    );
    assert_eq!(rt; source.faults(), 1);
    let reason = source.reason().ok_or("no reason")?;
    assert_eq!(rt; reason.kind(), ErrorKind::Interrupted);
    assert_eq!(rt;
        read_whole(alloc, &mut source, 9)?.as_slice(),
        b"x".as_slice(),
        "nothing is lost"
    );
    assert_eq!(rt; source.faults(), 1);
    let mut sink = StdoutSink::new(Hiccups { calls: 0 });
    assert_eq!(rt; write_whole(&mut sink, b"abc"), Err(PutFault::Failed));
    assert_eq!(rt; sink.faults(), 1);
    let reason = sink.reason().ok_or("no reason")?;
    assert_eq!(rt; reason.kind(), ErrorKind::BrokenPipe);
    assert_eq!(rt; write_whole(&mut sink, b"abc"), Ok(()));
    assert_eq!(rt; sink.faults(), 1);
    let mut sink = StdoutSink::new(Hiccups { calls: 0 });
    assert_eq!(rt; sink.flush(), Err(Failed), "the flush is interrupted");
    assert_eq!(rt; sink.faults(), 1);
    assert_eq!(rt; sink.flush(), Ok(()));
    assert_eq!(rt; sink.faults(), 1);
    Ok(())
}

#[test]
fn streams_hand_bytes_on(rt: HostRuntime) -> Result<(), Fail> {
    let alloc = rt.alloc();
    let mut source = StdinSource::new(b"abc".as_slice());
    assert_eq!(rt;
        read_whole(alloc, &mut source, 3)?.as_slice(),
        b"abc".as_slice()
    );
    assert_eq!(rt; source.faults(), 0);
    let mut written = Vec::new(alloc);
    let mut sink = StdoutSink::new(&mut written);
    assert_eq!(rt; write_whole(&mut sink, b"abc"), Ok(()));
    assert_eq!(rt; sink.faults(), 0);
    drop(sink);
    assert_eq!(rt; written.as_slice(), b"abc".as_slice());
    Ok(())
}

#[test]
fn files_of_the_system(rt: HostRuntime) -> Result<(), Fail> {
    const NAME: &str = "outside_files_of_the_system";
    let alloc = rt.alloc();
    let _ = fs::remove_file(&rt, NAME);
    let mut files = DiskFiles::new(&rt);
    assert_eq!(rt;
        files.take(alloc, NAME),
        Err(TakeFault::Failed),
        "it isn't there"
    );
    assert_eq!(rt; files.faults(), 1);
    fs::write(&rt, NAME, b"STATES 2\n".as_slice())?;
    assert_eq!(rt;
        files.take(alloc, NAME)?.as_slice(),
        b"STATES 2\n".as_slice()
    );
    assert_eq!(rt; files.faults(), 1);
    fs::remove_file(&rt, NAME)?;
    assert_eq!(rt;
        files.take(alloc, "/dev/zero"),
        Err(TakeFault::TooBig),
        "it never ends"
    );
    assert_eq!(rt; files.faults(), 1);
    Ok(())
}

// A name is taken as it is, with the blank at its end.
#[test]
fn a_name_that_ends_with_a_blank_is_a_name_of_its_own(rt: HostRuntime) -> Result<(), Fail> {
    const NAME: &str = "outside_name_with_a_blank ";
    let alloc = rt.alloc();
    fs::write(&rt, NAME, b"x".as_slice())?;
    let mut files = DiskFiles::new(&rt);
    assert!(rt; files.failure().is_none());
    assert_eq!(rt; files.take(alloc, NAME)?.as_slice(), b"x".as_slice());
    assert_eq!(rt; files.take(alloc, NAME.trim_end()), Err(TakeFault::Failed));
    fs::remove_file(&rt, NAME)?;
    let failure = files.failure().ok_or("no failure")?;
    assert_eq!(rt; failure.name(), Some(NAME.trim_end()));
    let reason = failure.reason().ok_or("no reason")?;
    assert_eq!(rt; reason.kind(), ErrorKind::NotFound);
    Ok(())
}

// 64 MiB, and one byte more.
#[test]
fn a_file_of_the_limit_is_taken_and_no_greater_one(rt: HostRuntime) -> Result<(), Fail> {
    const NAME: &str = "outside_file_of_the_limit";
    let alloc = rt.alloc();
    let mut files = DiskFiles::new(&rt);
    let mut bytes = vec![in alloc; b'x'; FILE_LIMIT]?;
    fs::write(&rt, NAME, &bytes)?;
    let taken = files.take(alloc, NAME)?;
    assert_eq!(rt; taken.len(), FILE_LIMIT);
    assert!(rt; taken == bytes, "all its bytes");
    bytes.push(b'x')?;
    fs::write(&rt, NAME, &bytes)?;
    assert_eq!(rt; files.take(alloc, NAME), Err(TakeFault::TooBig));
    assert_eq!(rt; files.faults(), 0);
    fs::remove_file(&rt, NAME)?;
    Ok(())
}

#[test]
fn open_gate() {
    OpenGate.pause(0, 1);
}
