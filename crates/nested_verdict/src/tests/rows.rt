// Formulas whose answers are worked out by hand.
use super::*;

#[test]
fn an_until_over_a_next(rt: HostRuntime) -> Result<(), Fail> {
    check_brackets(
        &rt,
        rt.alloc(),
        STEP,
        b"P{>=0.5}[tt U[0,1] P{>=0.9}[X a]]",
        Some(32),
        &[SATISFIED, REFUTED],
        &[ONE, ZERO],
    )
}

// The threshold of the inner until lies in the bracket of state 1. So state 1 may be of the goal, and isn't surely.
#[test]
fn an_until_over_one_that_is_open(rt: HostRuntime) -> Result<(), Fail> {
    check_brackets(
        &rt,
        rt.alloc(),
        STEP,
        b"P{>=0.5}[tt U[0,1] P{>=0.632120559}[tt U[0,1] a]]",
        Some(32),
        &[SATISFIED, SATISFIED],
        &[
            Printed {
                low: 632_120_558_828,
                high: 1_000_000_000_000,
            },
            ONE,
        ],
    )
}

#[test]
fn an_until_that_is_denied(rt: HostRuntime) -> Result<(), Fail> {
    check_verdicts(
        &rt,
        rt.alloc(),
        STEP,
        b"!P{>=0.64}[tt U[0,1] a]",
        &[SATISFIED, REFUTED],
    )
}

// As many conjunctions or disjunctions as a line has room for.
fn check_chain<R: Threads + Sync + Abort>(
    rt: &R,
    alloc: Global,
    more: &[u8],
    expected: &[Verdict],
) -> Result<(), Fail> {
    let mut line = Vec::from_slice(alloc, b"a")?;
    for _ in 0u32..1_365 {
        line.extend_from_slice(more)?;
    }
    assert_eq!(rt; line.len(), 4_096);
    check_verdicts(rt, alloc, STEP, &line, expected)
}

#[test]
fn the_longest_chains_are_answered(rt: HostRuntime) -> Result<(), Fail> {
    let alloc = rt.alloc();
    check_chain(&rt, alloc, b"&&a", &[REFUTED, SATISFIED])?;
    check_chain(&rt, alloc, b"||a", &[REFUTED, SATISFIED])
}

// As many operators in one another as may be, and in the innermost one as many conjunctions as there is room for.
fn check_deepest<R: Threads + Sync + Abort>(
    rt: &R,
    alloc: Global,
    front: &[u8],
    back: &[u8],
) -> Result<(), Fail> {
    let mut line = Vec::new(alloc);
    for _ in 0u32..64 {
        line.extend_from_slice(front)?;
    }
    line.extend_from_slice(b"a")?;
    for _ in 0u32..900 {
        line.extend_from_slice(b"&&a")?;
    }
    for _ in 0u32..64 {
        line.extend_from_slice(back)?;
    }
    let answer = ask(rt, alloc, STEP, &line)?;
    assert_eq!(rt;
        answer.verdicts.as_slice(),
        [SATISFIED, SATISFIED].as_slice()
    );
    Ok(())
}

#[test]
fn the_deepest_formulas_are_answered(rt: HostRuntime) -> Result<(), Fail> {
    let alloc = rt.alloc();
    check_deepest(&rt, alloc, b"P{>0}[tt U[0,1] ", b"]")?;
    check_deepest(&rt, alloc, b"P{>0}[", b" U tt]")
}
