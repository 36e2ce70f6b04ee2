// Runs that end as soon as all states are decided.
use super::workers::{LINE_LAB, line_tra};
use super::*;
use std::sync::atomic::{AtomicU32, Ordering};

const ALONE: &[&str] = &[
    "mrmc_any",
    "ctmc",
    "M.tra",
    "M.lab",
    "--workers",
    "1",
    "--until-decided",
];

const FOUR_WORKERS: &[&str] = &[
    "mrmc_any",
    "ctmc",
    "--until-decided",
    "M.tra",
    "M.lab",
    "--workers=4",
];

// At least one jump comes with the probability 1 - 1/e; what lies past the first one is at most what is left.
const EARLY: &str =
    "formula P{>=0.1}[tt U[0,1] a]\nhorizon 32\n1 satisfied 0.367879441171 0.632120559760\n2 satisfied 1.000000000000 1.000000000000\n";

const OPEN: &str =
    "formula P{>=0.632120559}[tt U[0,1] a]\nhorizon 32\n1 undecided 0.632120558828 0.632120559760\n2 satisfied 1.000000000000 1.000000000000\n";

/// Keeps the greatest layer before which a worker paused.
#[derive(Drop)]
struct Greatest {
    layer: AtomicU32,
}

impl Gate for Greatest {
    fn pause(&self, _worker: u32, layer: u32) {
        self.layer.fetch_max(layer, Ordering::SeqCst);
    }
}

fn over_step(words: &'static [&'static str], formulas: &'static [u8]) -> Input<'static> {
    Input {
        words,
        tra: STEP,
        lab: LAB,
        rew: b"",
        formulas,
    }
}

#[test]
fn one_layer_decides(rt: HostRuntime) -> Result<(), Fail> {
    let gate = Greatest {
        layer: AtomicU32::new(0),
    };
    let input = over_step(ALONE, b"P{>=0.1}[tt U[0,1] a]");
    let (status, text) = serve_gated(&rt, input, 0, &gate)?;
    assert_eq!(&rt; str::from_utf8(&text)?, EARLY);
    assert_eq!(&rt; status, Status::Done);
    assert!(&rt; gate.layer.load(Ordering::SeqCst) <= 2);
    Ok(())
}

#[test]
fn an_open_state_has_all_computed(rt: HostRuntime) -> Result<(), Fail> {
    let formula = b"P{>=0.6321205590}[tt U[0,1] a]";
    expect(&rt, over_step(ALONE, formula), Status::Done, OPEN)?;
    expect(&rt, over_step(FOUR_WORKERS, formula), Status::Done, OPEN)
}

// The text without the two numbers of each state's line.
fn verdicts_of(alloc: Global, text: &str) -> Result<String, AllocError> {
    let mut verdicts = String::new(alloc);
    for line in text.lines() {
        let mut words = line.split(' ');
        for word in [words.next(), words.next()] {
            verdicts.push_str(word.unwrap_or(""))?;
            verdicts.push(' ')?;
        }
    }
    Ok(verdicts)
}

// The thresholds lie between the probabilities of the states.
const OF_THE_LINE: &[&[u8]] = &[
    b"P{>=0.5}[tt U[0,50] a]",
    b"P{<0.001}[tt U[0,50] a]",
    b"P{>0.999999}[tt U a]",
    b"!P{>=0.5}[P{<0.9}[tt U[0,50] a] U[0,50] a]",
];

// What is said of the states is the same with the flag and without it.
#[test]
fn verdicts_are_those_of_the_whole_run(rt: HostRuntime) -> Result<(), Fail> {
    let alloc = rt.alloc();
    let tra = line_tra(alloc)?;
    for formulas in OF_THE_LINE {
        let whole = Input {
            words: CTMC,
            tra: &tra,
            lab: LINE_LAB,
            rew: b"",
            formulas,
        };
        let early = Input {
            words: FOUR_WORKERS,
            tra: &tra,
            lab: LINE_LAB,
            rew: b"",
            formulas,
        };
        let (_, wanted) = serve_input(&rt, whole, 0)?;
        let (status, found) = serve_input(&rt, early, 0)?;
        assert_eq!(&rt; status, Status::Done);
        assert_eq!(&rt;
            verdicts_of(alloc, str::from_utf8(&found)?)?.as_str(),
            verdicts_of(alloc, str::from_utf8(&wanted)?)?.as_str()
        );
    }
    Ok(())
}
