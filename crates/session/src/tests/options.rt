// The options: what each changes of the text, and what none changes.
use super::*;
use text_lines::FileWhat;

const UNTIL: &[u8] = b"P{>=0.63}[tt U[0,1] a]\n";

const UNTIL_ANSWER: &str =
    "formula P{>=0.63}[tt U[0,1] a]\nhorizon 32\n1 satisfied 0.632120558828 0.632120559760\n2 satisfied 1.000000000000 1.000000000000\n";

// The words of the command, with options after them.
fn expect_with(
    rt: &(impl Threads + Sync + AllocGlobal + Abort),
    words: &[&str],
    formulas: &[u8],
    text: &str,
) -> Result<(), Fail> {
    let input = Input {
        words,
        ..Input::ctmc(STEP, LAB, formulas)
    };
    expect(rt, input, Status::Done, text)
}

// The horizon is twice the load, rounded up, and the bits; the bracket is as wide as 2^-bits, rounded outward.
const BITS: &[(&[&str], &[u8], &str)] = &[
    (
        &["mrmc_any", "ctmc", "M.tra", "M.lab", "--bits", "8"],
        UNTIL,
        "formula P{>=0.63}[tt U[0,1] a]\nhorizon 10\n1 satisfied 0.632120555132 0.636026805133\n2 satisfied 1.000000000000 1.000000000000\n",
    ),
    (
        &["mrmc_any", "--bits=30", "ctmc", "M.tra", "M.lab"],
        UNTIL,
        UNTIL_ANSWER,
    ),
    (
        &["mrmc_any", "ctmc", "--bits=048", "M.tra", "M.lab"],
        UNTIL,
        "formula P{>=0.63}[tt U[0,1] a]\nhorizon 50\n1 satisfied 0.632120558828 0.632120558829\n2 satisfied 1.000000000000 1.000000000000\n",
    ),
    (
        &["mrmc_any", "ctmc", "M.tra", "M.lab", "--bits=8"],
        b"P{>=0.003}[tt U[0,0] a]\n",
        "formula P{>=0.003}[tt U[0,0] a]\nhorizon 8\n1 undecided 0.000000000000 0.003906250001\n2 satisfied 1.000000000000 1.000000000000\n",
    ),
    (
        &["mrmc_any", "ctmc", "M.tra", "M.lab", "--bits", "48"],
        b"P{>=0.003}[tt U[0,0] a]\n",
        "formula P{>=0.003}[tt U[0,0] a]\nhorizon 48\n1 refuted 0.000000000000 0.000000000001\n2 satisfied 1.000000000000 1.000000000000\n",
    ),
];

#[test]
fn bits_say_how_far_is_looked_and_how_narrow_the_bracket_is(rt: HostRuntime) -> Result<(), Fail> {
    for (words, formulas, text) in BITS {
        expect_with(&rt, words, formulas, text)?;
    }
    Ok(())
}

// An until of a load that isn't whole, a next, and a label.
#[test]
fn a_load_is_rounded_up_for_the_horizon(rt: HostRuntime) -> Result<(), Fail> {
    let input = Input {
        words: &["mrmc_any", "ctmc", "M.tra", "M.lab", "--bits=8"],
        ..Input::ctmc(TRA, LAB, b"P{>=0.5}[tt U[0,0.26] a]\n")
    };
    expect_front(&rt, input, "formula P{>=0.5}[tt U[0,0.26] a]\nhorizon 14\n")
}

// The until of the row above, a next and a label, of which only the first is watched. Of a state of the goal each bracket is
// the last.
const THREE: &[u8] = b"P{>=0.63}[tt U[0,1] a]\nP{>0}[X a]\na\n";

const WATCHED: &[(&[&str], &str)] = &[
    (
        &[
            "mrmc_any", "ctmc", "M.tra", "M.lab", "--watch", "3", "--state", "2",
        ],
        "formula P{>=0.63}[tt U[0,1] a]\nhorizon 32\nwatch 1 1.000000000000 1.000000000000\nwatch 2 1.000000000000 1.000000000000\nwatch 3 1.000000000000 1.000000000000\n1 satisfied 0.632120558828 0.632120559760\n2 satisfied 1.000000000000 1.000000000000\nformula P{>0}[X a]\n1 satisfied 1.000000000000 1.000000000000\n2 refuted 0.000000000000 0.000000000000\nformula a\n1 refuted\n2 satisfied\n",
    ),
    (
        &[
            "mrmc_any",
            "ctmc",
            "M.tra",
            "M.lab",
            "--state=2",
            "--watch=0",
        ],
        "formula P{>=0.63}[tt U[0,1] a]\nhorizon 32\n1 satisfied 0.632120558828 0.632120559760\n2 satisfied 1.000000000000 1.000000000000\nformula P{>0}[X a]\n1 satisfied 1.000000000000 1.000000000000\n2 refuted 0.000000000000 0.000000000000\nformula a\n1 refuted\n2 satisfied\n",
    ),
];

#[test]
fn the_watched_state_is_shown_after_the_horizon(rt: HostRuntime) -> Result<(), Fail> {
    for (words, text) in WATCHED {
        expect_with(&rt, words, THREE, text)?;
    }
    Ok(())
}

const WITHOUT_EFFECT: &[&[&str]] = &[
    &["mrmc_any", "ctmc", "M.tra", "M.lab", "--workers", "1"],
    &["mrmc_any", "--workers=64", "ctmc", "M.tra", "M.lab"],
    &["mrmc_any", "ctmc", "--jumps", "1", "M.tra", "M.lab"],
    &["mrmc_any", "ctmc", "M.tra", "--jumps=16384", "M.lab"],
    &["mrmc_any", "ctmc", "M.tra", "M.lab", "--state", "2"],
    &["mrmc_any", "ctmc", "--", "M.tra", "M.lab"],
];

#[test]
fn neither_workers_nor_jumps_change_a_bounded_until(rt: HostRuntime) -> Result<(), Fail> {
    for words in WITHOUT_EFFECT {
        expect_with(&rt, words, UNTIL, UNTIL_ANSWER)?;
    }
    Ok(())
}

const WRONG_OPTIONS: &[&[&str]] = &[
    &["mrmc_any", "ctmc", "M.tra", "M.lab", "--workers", "0"],
    &["mrmc_any", "ctmc", "M.tra", "M.lab", "--workers=65"],
    &["mrmc_any", "ctmc", "M.tra", "M.lab", "--bits", "7"],
    &["mrmc_any", "ctmc", "M.tra", "M.lab", "--bits=49"],
    &["mrmc_any", "ctmc", "M.tra", "M.lab", "--jumps=0"],
    &["mrmc_any", "ctmc", "M.tra", "M.lab", "--jumps=16385"],
    &["mrmc_any", "ctmc", "M.tra", "M.lab", "--watch=1001"],
    &["mrmc_any", "ctmc", "M.tra", "M.lab", "--state=0"],
    &["mrmc_any", "ctmc", "M.tra", "M.lab", "--state=65537"],
    &["mrmc_any", "ctmc", "M.tra", "M.lab", "--bits"],
    &["mrmc_any", "ctmc", "M.tra", "M.lab", "--bits", "-8"],
    &["mrmc_any", "ctmc", "M.tra", "M.lab", "--bits=+8"],
    &["mrmc_any", "ctmc", "M.tra", "M.lab", "--bit=8"],
    &[
        "mrmc_any", "ctmc", "M.tra", "M.lab", "--bits=8", "--bits", "8",
    ],
    &["mrmc_any", "ctmc", "M.tra", "M.lab", "--", "--bits=8"],
    &["mrmc_any", "ctmc", "M.tra", "M.lab", "--until-decided=1"],
    &[
        "mrmc_any",
        "ctmc",
        "M.tra",
        "M.lab",
        "--",
        "--until-decided",
    ],
    &[
        "mrmc_any",
        "--until-decided",
        "ctmc",
        "M.tra",
        "M.lab",
        "--until-decided",
    ],
];

#[test]
fn wrong_options_are_answered_by_the_usage(rt: HostRuntime) -> Result<(), Fail> {
    for words in WRONG_OPTIONS {
        let input = Input {
            words,
            ..Input::ctmc(STEP, LAB, UNTIL)
        };
        expect(&rt, input, Status::Usage, USAGE)?;
    }
    Ok(())
}

// The file of labels, which has a fault, isn't looked at.
#[test]
fn a_state_past_the_chain_can_not_be_watched(rt: HostRuntime) -> Result<(), Fail> {
    let status = Status::Model(ModelFault {
        file: Which::TraFile,
        line: 0,
        what: FileWhat::WatchState,
    });
    for lab in [LAB, b""] {
        let input = Input {
            words: &["mrmc_any", "ctmc", "M.tra", "M.lab", "--state", "3"],
            ..Input::ctmc(STEP, lab, UNTIL)
        };
        expect(&rt, input, status, "refused tra line 0 WatchState\n")?;
    }
    Ok(())
}

// Nor is it asked for, though its taking would fail; a fault of the chain's file comes first.
#[test]
fn the_labels_are_not_asked_for_where_the_state_is_past_the_chain(
    rt: HostRuntime,
) -> Result<(), Fail> {
    let input = Input {
        words: &["mrmc_any", "ctmc", "M.tra", "missing.lab", "--state=3"],
        ..Input::ctmc(STEP, LAB, UNTIL)
    };
    let fail = FailingCalls {
        taking: 2,
        reading: 0,
        writing: 0,
    };
    let course = serve_failing(&rt, input, fail)?;
    assert_eq!(rt;
        str::from_utf8(&course.written)?,
        "refused tra line 0 WatchState\n"
    );
    assert_eq!(rt; course.faults, [0, 0, 0]);
    let faulty = Input {
        tra: b"STATES 2\nTRANSITIONS 1\n1 2\n",
        ..input
    };
    let course = serve_failing(&rt, faulty, fail)?;
    assert_eq!(rt;
        str::from_utf8(&course.written)?,
        "refused tra line 3 Word\n"
    );
    assert_eq!(rt; course.faults, [0, 0, 0]);
    Ok(())
}
