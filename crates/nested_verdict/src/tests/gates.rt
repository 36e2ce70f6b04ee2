// Workers in any order of steps: on a line of 200 states in 4 blocks the answers are the same.
use super::*;
use std::alloc::AllocError;
use std::sync::atomic::{AtomicU64, Ordering};

// A gate gives up after so many looks.
const LOOKS: u32 = 100_000_000;

// Each of 200 states goes to the next with the rate 1, and the last has the label a.
fn line(alloc: Global) -> Result<String, AllocError> {
    let mut text = format!(in alloc; "STATES 200\nTRANSITIONS 199\n")?;
    for from in 1..200u32 {
        let transition = format!(in alloc; "{from} {} 1\n", from + 1)?;
        text.push_str(transition.as_str())?;
    }
    Ok(text)
}

const LAB: &[u8] = b"#DECLARATION\na b\n#END\n200 a\n100 b\n";

/// Holds each of two workers at its first pause until the other is there, and counts those that
/// saw the other.
#[derive(Drop)]
struct Meeting {
    here: AtomicU64,
    met: AtomicU64,
}

impl Gate for Meeting {
    fn pause(&self, _worker: u32, layer: u32) {
        if layer == 1 {
            self.here.fetch_add(1, Ordering::SeqCst);
            if comes_to(&self.here, 2) {
                self.met.fetch_add(1, Ordering::SeqCst);
            }
        }
    }
}

// Whether the count came to `wanted`.
fn comes_to(count: &AtomicU64, wanted: u64) -> bool {
    for _ in 0..LOOKS {
        if count.load(Ordering::SeqCst) == wanted {
            return true;
        }
    }
    false
}

/// Holds each worker at each pause for a while of its own: up to 63 looks at a number that is drawn
/// anew for each pause.
#[derive(Drop)]
struct Drawn {
    state: AtomicU64,
}

impl Gate for Drawn {
    fn pause(&self, _worker: u32, _layer: u32) {
        let drawn = self
            .state
            .fetch_add(0x9E37_79B9_7F4A_7C15, Ordering::SeqCst);
        for _ in 0..drawn >> 58 {
            self.state.load(Ordering::SeqCst);
        }
    }
}

fn by_workers(workers: u32) -> Options {
    Options { workers, ..PLAIN }
}

#[test]
fn two_workers_run_side_by_side(rt: HostRuntime) -> Result<(), Fail> {
    let alloc = rt.alloc();
    let tra = line(alloc)?;
    let files = Files {
        tra: tra.as_bytes(),
        lab: LAB,
    };
    let gate = Meeting {
        here: AtomicU64::new(0),
        met: AtomicU64::new(0),
    };
    let answer = ask_gated(
        &rt,
        alloc,
        files,
        b"P{>=0.5}[tt U[0,50] a]",
        by_workers(2),
        &gate,
    )??;
    assert_eq!(&rt; gate.met.load(Ordering::SeqCst), 2);
    assert_eq!(&rt; answer.verdicts.first(), Some(&REFUTED));
    assert_eq!(&rt; answer.verdicts.last(), Some(&SATISFIED));
    Ok(())
}

// The line is answered alike by one worker who shares nothing and by several, whom the gate holds up.
fn check_alike<R: Threads + Sync + Abort, G: Gate>(
    rt: &R,
    alloc: Global,
    line: &[u8],
    gate: &G,
) -> Result<(), Fail> {
    let tra = self::line(alloc)?;
    let files = Files {
        tra: tra.as_bytes(),
        lab: LAB,
    };
    let alone = ask_gated(rt, alloc, files, line, by_workers(1), &OpenGate)??;
    let (verdicts, alone) = opened(alone)?;
    for workers in [1u32, 2, 3, 8] {
        let answer = ask_gated(rt, alloc, files, line, by_workers(workers), gate)??;
        let (found, shown) = opened(answer)?;
        assert_eq!(rt; found.as_slice(), verdicts.as_slice());
        assert_eq!(rt; shown.horizon, alone.horizon);
        assert_eq!(rt; shown.states.as_slice(), alone.states.as_slice());
    }
    Ok(())
}

#[test]
fn answers_are_alike_whatever_the_order_of_steps(rt: HostRuntime) -> Result<(), Fail> {
    let alloc = rt.alloc();
    let gate = Drawn {
        state: AtomicU64::new(1),
    };
    for line in [
        b"P{>=0.5}[tt U[0,50] a]".as_slice(),
        b"P{>=0.5}[P{<0.9}[tt U[0,9] b] U[0,20] P{>=0.2}[!b U[0,5] a]]".as_slice(),
        b"P{>0.3}[tt U P{>=0.7}[X P{>=0.5}[tt U[0,20] a]]]".as_slice(),
    ] {
        check_alike(&rt, alloc, line, &OpenGate)?;
        check_alike(&rt, alloc, line, &gate)?;
    }
    Ok(())
}

// A watched run takes its words from the board, and so do the operators inside it, which aren't watched.
#[test]
fn a_watched_run_answers_alike(rt: HostRuntime) -> Result<(), Fail> {
    let alloc = rt.alloc();
    let tra = line(alloc)?;
    let files = Files {
        tra: tra.as_bytes(),
        lab: LAB,
    };
    let line = b"P{>=0.5}[tt U[0,20] P{>=0.2}[!b U[0,5] a]]";
    let alone = ask_gated(&rt, alloc, files, line, by_workers(1), &OpenGate)??;
    let watching = Options {
        watch: 5,
        state: 150,
        ..PLAIN
    };
    let watched = ask_gated(&rt, alloc, files, line, watching, &OpenGate)??;
    assert_eq!(&rt; watched.verdicts.as_slice(), alone.verdicts.as_slice());
    let (Some(shown), Some(alone_shown)) = (watched.shown, alone.shown) else {
        return Err(Fail::from("no brackets"));
    };
    assert_eq!(&rt; shown.states.as_slice(), alone_shown.states.as_slice());
    assert_eq!(&rt; shown.watched.len(), 5);
    assert_eq!(&rt; shown.watched.last(), alone_shown.states.get(150));
    Ok(())
}
