// The flag of an early end: what stays as it is, and what may be wider.
use super::unbounded::SLOW_FORK;
use super::watching::nested_lines;
use super::workers::{LINE_LAB, line_tra};
use super::*;

const EARLY: &[&str] = &["mrmc_any", "ctmc", "M.tra", "M.lab", "--until-decided"];

// Where a state is left undecided the brackets are those of the whole run; a next has its own; and of an until inside another
// operator the verdicts alone are shown.
const SAME: &[(&[&str], &[u8], &[u8], &str)] = &[
    (
        &[
            "mrmc_any",
            "--until-decided",
            "ctmc",
            "M.tra",
            "M.lab",
            "--bits=8",
        ],
        STEP,
        b"P{>=0.003}[tt U[0,0] a]\n",
        "formula P{>=0.003}[tt U[0,0] a]\nhorizon 8\n1 undecided 0.000000000000 0.003906250001\n2 satisfied 1.000000000000 1.000000000000\n",
    ),
    (
        &[
            "mrmc_any",
            "ctmc",
            "M.tra",
            "M.lab",
            "--jumps=4",
            "--until-decided",
            "--workers=2",
        ],
        SLOW_FORK,
        b"P{>=0.5}[tt U a]\n",
        "formula P{>=0.5}[tt U a]\nhorizon 4\n1 undecided 0.468750000000 0.531250000000\n2 satisfied 1.000000000000 1.000000000000\n3 refuted 0.000000000000 0.000000000000\n4 undecided 0.437500000000 0.562500000000\n",
    ),
    (
        EARLY,
        STEP,
        b"P{>0}[X a]\n!P{>=0.63}[tt U[0,1] a]\n",
        "formula P{>0}[X a]\n1 satisfied 1.000000000000 1.000000000000\n2 refuted 0.000000000000 0.000000000000\nformula !P{>=0.63}[tt U[0,1] a]\n1 refuted\n2 refuted\n",
    ),
];

#[test]
fn what_no_run_leaves_early_is_the_same(rt: HostRuntime) -> Result<(), Fail> {
    for (words, tra, formulas, text) in SAME {
        let input = Input {
            words,
            ..Input::ctmc(tra, LAB, formulas)
        };
        expect(&rt, input, Status::Done, text)?;
    }
    Ok(())
}

// What the line of a state says.
#[derive(Clone, Copy)]
struct StateLine<'a> {
    state: &'a str,
    verdict: &'a str,
    low: &'a str,
    high: &'a str,
}

fn state_line(line: &str) -> Option<StateLine<'_>> {
    let mut words = line.split(' ');
    let state = words.next()?;
    let verdict = words.next()?;
    let low = words.next()?;
    let high = words.next()?;
    Some(StateLine {
        state,
        verdict,
        low,
        high,
    })
}

// Whether the second line is the first one, or says the same with a bracket round the first one's.
fn is_line_round(whole: &str, early: &str) -> bool {
    match (state_line(whole), state_line(early)) {
        (Some(inner), Some(outer)) => {
            outer.state == inner.state
                && outer.verdict == inner.verdict
                && outer.low <= inner.low
                && inner.high <= outer.high
        }
        _ => whole == early,
    }
}

fn is_text_round(whole: &str, early: &str) -> bool {
    let mut others = early.split('\n');
    for line in whole.split('\n') {
        let Some(other) = others.next() else {
            return false;
        };
        if !is_line_round(line, other) {
            return false;
        }
    }
    others.next().is_none()
}

const EARLY_BY_NUMBER: &[&[&str]] = &[
    &[
        "mrmc_any",
        "ctmc",
        "M.tra",
        "M.lab",
        "--workers=1",
        "--until-decided",
    ],
    EARLY,
    &[
        "mrmc_any",
        "--until-decided",
        "ctmc",
        "M.tra",
        "M.lab",
        "--workers=64",
    ],
];

// Of a line of 200 states the verdicts are those of the whole run.
#[test]
fn the_verdicts_are_the_same_and_brackets_may_be_wider(rt: HostRuntime) -> Result<(), Fail> {
    let tra = line_tra(rt.alloc())?;
    let plain = Input::ctmc(&tra, LINE_LAB, b"P{>=0.5}[tt U[0,50] a]\n");
    let (_, whole) = serve_input(&rt, plain, 0)?;
    let whole = str::from_utf8(&whole)?;
    for words in EARLY_BY_NUMBER {
        let (status, early) = serve_input(&rt, Input { words, ..plain }, 0)?;
        let early = str::from_utf8(&early)?;
        assert_eq!(rt; status, Status::Done);
        assert!(rt; is_text_round(whole, early), "{early:?}");
    }
    Ok(())
}

// The brackets that are taken lie in one another, and the last is the printed one.
#[test]
fn a_run_that_ends_early_is_watched(rt: HostRuntime) -> Result<(), Fail> {
    let words = &[
        "mrmc_any",
        "ctmc",
        "M.tra",
        "M.lab",
        "--watch=3",
        "--until-decided",
    ];
    let input = Input {
        words,
        ..Input::ctmc(STEP, LAB, b"P{>=0.3}[tt U[0,1] a]\n")
    };
    let (status, bytes) = serve_input(&rt, input, 0)?;
    let text = str::from_utf8(&bytes)?;
    assert_eq!(rt; status, Status::Done);
    assert_eq!(rt; nested_lines(text), Some(3), "{text:?}");
    assert!(rt; text.contains("\n1 satisfied 0."), "{text:?}");
    assert!(rt;
        text.ends_with("\n2 satisfied 1.000000000000 1.000000000000\n"),
        "{text:?}"
    );
    Ok(())
}
