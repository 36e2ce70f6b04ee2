// A line of 200 states, each left for the next one at the rate 1, served by workers.
use super::watching::nested_lines;
use super::*;
use std::sync::atomic::{AtomicU64, Ordering};

const UNTIL: &[u8] = b"P{>=0.5}[tt U[0,50] a]\n";

pub(super) const LINE_LAB: &[u8] = b"#DECLARATION\na\n#END\n200 a\n";

// The last layer of the until.
const LAST: u32 = 130;

// A gate gives up after so many looks.
const LOOKS: u32 = 100_000_000;

pub(super) fn line_tra(alloc: Global) -> Result<Vec<u8>, Fail> {
    let mut tra = b"STATES 200\nTRANSITIONS 199\n".to_vec(alloc)?;
    for state in 1..200u32 {
        let next = state.saturating_add(1);
        let line = format!(in alloc; "{state} {next} 1\n")?;
        tra.extend_from_slice(line.as_bytes())?;
    }
    Ok(tra)
}

// What is written of the until with these words.
fn serve_line<G: Gate>(
    rt: &(impl Threads + Sync + AllocGlobal),
    words: &[&str],
    gate: &G,
) -> Result<(Status, Vec<u8>), Fail> {
    let tra = line_tra(rt.alloc())?;
    let input = Input {
        words,
        ..Input::ctmc(&tra, LINE_LAB, UNTIL)
    };
    serve_gated(rt, input, 0, gate)
}

// Whether the count came to `wanted`.
fn comes_to(count: &AtomicU64, wanted: u64) -> bool {
    for _ in 0..LOOKS {
        if count.load(Ordering::SeqCst) == wanted {
            return true;
        }
    }
    false
}

// Holds each of two workers at its first pause until the other is there, and counts those that saw
// the other.
#[derive(Drop)]
struct Meeting {
    here: AtomicU64,
    met: AtomicU64,
}

impl Gate for Meeting {
    fn pause(&self, _worker: u32, layer: u32) {
        if layer == 1 {
            self.here.fetch_add(1, Ordering::SeqCst);
            if comes_to(&self.here, 2) {
                self.met.fetch_add(1, Ordering::SeqCst);
            }
        }
    }
}

// Holds the only worker at its first pause until the reader has paused before its second bracket,
// and the reader there until the worker has paused at the last layer. Counts those that saw what
// they were held for.
#[derive(Drop)]
struct Watching {
    second: AtomicU64,
    last: AtomicU64,
    seen: AtomicU64,
}

impl Watching {
    fn wait_for(&self, count: &AtomicU64) {
        if comes_to(count, 1) {
            self.seen.fetch_add(1, Ordering::SeqCst);
        }
    }
}

impl Gate for Watching {
    fn pause(&self, worker: u32, layer: u32) {
        if worker == 0 && layer == 1 {
            self.wait_for(&self.second);
        }
        if worker == 0 && layer == LAST {
            self.last.fetch_add(1, Ordering::SeqCst);
        }
        if worker == 1 && layer == 1 {
            self.second.fetch_add(1, Ordering::SeqCst);
            self.wait_for(&self.last);
        }
    }
}

const BY_ONE: &[&str] = &["mrmc_any", "ctmc", "M.tra", "M.lab", "--workers=1"];

const BY_TWO: &[&str] = &["mrmc_any", "ctmc", "M.tra", "M.lab", "--workers=2"];

const BY_MANY: &[&str] = &["mrmc_any", "ctmc", "M.tra", "M.lab", "--workers=64"];

const WATCHED: &[&str] = &[
    "mrmc_any",
    "ctmc",
    "M.tra",
    "M.lab",
    "--workers=1",
    "--watch=3",
];

const WATCHED_BY_MANY: &[&str] = &[
    "mrmc_any",
    "ctmc",
    "M.tra",
    "M.lab",
    "--workers=64",
    "--watch=100",
];

const FRONT: &str = "formula P{>=0.5}[tt U[0,50] a]\nhorizon 130\n";

#[test]
fn the_bytes_are_the_same_for_any_number_of_workers(rt: HostRuntime) -> Result<(), Fail> {
    let (status, one) = serve_line(&rt, BY_ONE, &OpenGate)?;
    let (_, two) = serve_line(&rt, BY_TWO, &OpenGate)?;
    let (_, many) = serve_line(&rt, BY_MANY, &OpenGate)?;
    let text = str::from_utf8(&one)?;
    assert_eq!(rt; status, Status::Done);
    assert!(rt; text.starts_with(FRONT), "{text:?}");
    assert!(rt;
        text.ends_with("\n200 satisfied 1.000000000000 1.000000000000\n"),
        "{text:?}"
    );
    assert!(rt;
        text.contains("\n1 refuted 0.000000000000 0.000000000932\n"),
        "{text:?}"
    );
    assert_eq!(rt; str::from_utf8(&two)?, text);
    assert_eq!(rt; str::from_utf8(&many)?, text);
    Ok(())
}

#[test]
fn watch_lines_change_nothing_else(rt: HostRuntime) -> Result<(), Fail> {
    let (_, one) = serve_line(&rt, BY_ONE, &OpenGate)?;
    let (_, watched) = serve_line(&rt, WATCHED_BY_MANY, &OpenGate)?;
    let text = str::from_utf8(&watched)?;
    let states = str::from_utf8(&one)?.strip_prefix(FRONT).unwrap_or("");
    assert_eq!(rt; nested_lines(text), Some(100));
    assert!(rt; text.starts_with(FRONT), "{text:?}");
    assert!(rt; text.ends_with(states), "{text:?}");
    Ok(())
}

#[test]
fn two_workers_run_side_by_side(rt: HostRuntime) -> Result<(), Fail> {
    let gate = Meeting {
        here: AtomicU64::new(0),
        met: AtomicU64::new(0),
    };
    let (status, _) = serve_line(&rt, BY_TWO, &gate)?;
    assert_eq!(rt; status, Status::Done);
    assert_eq!(rt; gate.met.load(Ordering::SeqCst), 2);
    Ok(())
}

#[test]
fn brackets_before_the_last_are_fresh(rt: HostRuntime) -> Result<(), Fail> {
    let gate = Watching {
        second: AtomicU64::new(0),
        last: AtomicU64::new(0),
        seen: AtomicU64::new(0),
    };
    let (status, bytes) = serve_line(&rt, WATCHED, &gate)?;
    let text = str::from_utf8(&bytes)?;
    let rest = text.strip_prefix(FRONT).unwrap_or("");
    assert_eq!(rt; status, Status::Done);
    assert_eq!(rt; gate.seen.load(Ordering::SeqCst), 2);
    assert!(rt;
        rest.starts_with("watch 1 0.000000000000 1.000000000000\nwatch 2 0.000000000000 0."),
        "{text:?}"
    );
    assert_eq!(rt; nested_lines(text), Some(3));
    Ok(())
}
