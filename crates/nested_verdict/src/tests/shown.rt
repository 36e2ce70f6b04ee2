// What is shown: of a probability operator its own brackets, and nothing of those inside it.
use super::*;

const WATCHING: Options = Options {
    workers: 2,
    bits: 30,
    jumps: 512,
    watch: 3,
    state: 0,
    until_decided: false,
};

fn shown_of<R: Threads + Sync + Abort>(
    rt: &R,
    alloc: Global,
    line: &[u8],
) -> Result<Option<Shown>, Fail> {
    Ok(ask_gated(rt, alloc, STEP, line, WATCHING, &OpenGate)??.shown)
}

// So many brackets are taken of state 1, and the last is the one of its line.
fn check_watched<R: Threads + Sync + Abort>(
    rt: &R,
    alloc: Global,
    line: &[u8],
    count: usize,
) -> Result<(), Fail> {
    let Some(shown) = shown_of(rt, alloc, line)? else {
        return Err(Fail::from("no brackets"));
    };
    assert_eq!(rt; shown.watched.len(), count, "{line:?}");
    if count > 0 {
        assert_eq!(rt; shown.watched.last(), shown.states.first(), "{line:?}");
    }
    Ok(())
}

#[test]
fn the_outer_until_is_watched(rt: HostRuntime) -> Result<(), Fail> {
    let alloc = rt.alloc();
    check_watched(&rt, alloc, b"P{>=0.5}[tt U[0,1] a]", 3)?;
    check_watched(&rt, alloc, b"P{>=0.5}[tt U[0,1] P{>=0.9}[X a]]", 3)?;
    check_watched(
        &rt,
        alloc,
        b"P{>=0.5}[P{>0}[tt U a] U P{>=0.5}[tt U[0,1] a]]",
        3,
    )
}

#[test]
fn a_next_is_not_watched(rt: HostRuntime) -> Result<(), Fail> {
    let alloc = rt.alloc();
    check_watched(&rt, alloc, b"P{>=0.5}[X a]", 0)?;
    check_watched(&rt, alloc, b"P{>=0.5}[X P{>=0.5}[tt U[0,1] a]]", 0)
}

fn check_unshown<R: Threads + Sync + Abort>(
    rt: &R,
    alloc: Global,
    line: &[u8],
) -> Result<(), Fail> {
    assert!(rt; shown_of(rt, alloc, line)?.is_none(), "{line:?}");
    Ok(())
}

#[test]
fn nothing_is_shown_below_a_connective(rt: HostRuntime) -> Result<(), Fail> {
    let alloc = rt.alloc();
    check_unshown(&rt, alloc, b"a")?;
    check_unshown(&rt, alloc, b"!P{>=0.5}[tt U[0,1] a]")?;
    check_unshown(&rt, alloc, b"P{>=0.5}[tt U[0,1] a] && P{>=0.5}[X a]")?;
    check_unshown(&rt, alloc, b"a || P{>=0.5}[X P{>=0.5}[tt U[0,1] a]]")
}

// Parentheses are no operator.
#[test]
fn parentheses_hide_nothing(rt: HostRuntime) -> Result<(), Fail> {
    check_watched(&rt, rt.alloc(), b"((P{>=0.5}[tt U[0,1] a]))", 3)
}
