// What an inner operator leaves open, and what the outer one then says.
use super::*;

// From state 1 the states 2, 3 and 4 are next with 3, 5 and 2 parts in ten, and from state 5 state 1 alone. Whether a is reached
// within the time 1 with at least 0.632120559 is satisfied in state 2, undecided in state 3, and refuted in the others.
const SPLIT: Files<'static> = Files {
    tra: b"STATES 5\nTRANSITIONS 5\n1 2 3\n1 3 5\n1 4 2\n3 2 1\n5 1 1\n",
    lab: b"#DECLARATION\na\n#END\n2 a\n",
};

// The part of state 1 that surely is next and that may be.
const WIDE: Printed = Printed {
    low: 300_000_000_000,
    high: 800_000_000_000,
};

const ANY: Printed = Printed {
    low: 0,
    high: 1_000_000_000_000,
};

// The verdict and the bracket of state 1 of a next operator over what is open in state 3.
fn check_next_state<R: Threads + Sync + Abort>(
    rt: &R,
    alloc: Global,
    comparison: &[u8],
    expected: Verdict,
) -> Result<(), Fail> {
    let mut line = Vec::from_slice(alloc, b"P{")?;
    line.extend_from_slice(comparison)?;
    line.extend_from_slice(b"}[X P{>=0.632120559}[tt U[0,1] a]]")?;
    let (verdicts, shown) = opened(ask(rt, alloc, SPLIT, &line)?)?;
    assert_eq!(rt; verdicts.first(), Some(&expected), "{comparison:?}");
    assert_eq!(rt; shown.horizon, None);
    assert_eq!(rt;
        shown.states.as_slice(),
        [WIDE, ZERO, ONE, ZERO, ZERO].as_slice()
    );
    Ok(())
}

#[test]
fn a_next_over_an_open_state(rt: HostRuntime) -> Result<(), Fail> {
    let alloc = rt.alloc();
    check_next_state(&rt, alloc, b">=0.3", SATISFIED)?;
    check_next_state(&rt, alloc, b">=0.300000000000000001", UNDECIDED)?;
    check_next_state(&rt, alloc, b">=0.8", UNDECIDED)?;
    check_next_state(&rt, alloc, b">=0.800000000000000001", REFUTED)?;
    check_next_state(&rt, alloc, b">0.299999999999999999", SATISFIED)?;
    check_next_state(&rt, alloc, b">0.3", UNDECIDED)?;
    check_next_state(&rt, alloc, b">0.8", REFUTED)?;
    check_next_state(&rt, alloc, b"<0.3", REFUTED)?;
    check_next_state(&rt, alloc, b"<0.8", UNDECIDED)?;
    check_next_state(&rt, alloc, b"<0.800000000000000001", SATISFIED)?;
    check_next_state(&rt, alloc, b"<=0.299999999999999999", REFUTED)?;
    check_next_state(&rt, alloc, b"<=0.3", UNDECIDED)?;
    check_next_state(&rt, alloc, b"<=0.8", SATISFIED)
}

// The live states: state 1 may be one, and isn't surely.
#[test]
fn an_until_over_an_open_live_state(rt: HostRuntime) -> Result<(), Fail> {
    let alloc = rt.alloc();
    let low = Printed {
        low: 0,
        high: 632_120_559_760,
    };
    check_brackets(
        &rt,
        alloc,
        STEP,
        b"P{>=0.5}[P{>=0.632120559}[tt U[0,1] a] U[0,1] a]",
        Some(32),
        &[UNDECIDED, SATISFIED],
        &[low, ONE],
    )?;
    check_brackets(
        &rt,
        alloc,
        STEP,
        b"P{<0.5}[!P{>=0.632120559}[tt U[0,1] a] U[0,1] a]",
        Some(32),
        &[UNDECIDED, REFUTED],
        &[low, ONE],
    )?;
    check_brackets(
        &rt,
        alloc,
        STEP,
        b"P{>=0.5}[P{>=0.632120559}[tt U[0,1] a] U a]",
        Some(512),
        &[UNDECIDED, SATISFIED],
        &[ANY, ONE],
    )
}

// What is open doesn't matter where the chain can't be there, or where the other operand decides.
#[test]
fn an_until_that_no_open_state_bears_on(rt: HostRuntime) -> Result<(), Fail> {
    check_brackets(
        &rt,
        rt.alloc(),
        STEP,
        b"P{>=0.5}[tt U P{>=0.632120559}[tt U[0,1] a]]",
        Some(512),
        &[SATISFIED, SATISFIED],
        &[ONE, ONE],
    )
}

#[test]
fn three_operators_in_one_another(rt: HostRuntime) -> Result<(), Fail> {
    let alloc = rt.alloc();
    check_brackets(
        &rt,
        alloc,
        SPLIT,
        b"P{>=0.3}[X P{>0.3}[X P{>=0.632120559}[tt U[0,1] a]]]",
        None,
        &[SATISFIED, REFUTED, REFUTED, REFUTED, UNDECIDED],
        &[
            Printed {
                low: 500_000_000_000,
                high: 500_000_000_000,
            },
            ZERO,
            ZERO,
            ZERO,
            ANY,
        ],
    )?;
    check_brackets(
        &rt,
        alloc,
        SPLIT,
        b"P{>=0.5}[!P{>0.3}[X P{>=0.632120559}[tt U[0,1] a]] U[0,1] a]",
        Some(50),
        &[REFUTED, SATISFIED, REFUTED, REFUTED, REFUTED],
        &[
            Printed {
                low: 0,
                high: 299_986_380_953,
            },
            ONE,
            ZERO,
            ZERO,
            Printed {
                low: 0,
                high: 177_375_033_872,
            },
        ],
    )
}
