// Formulas with untils that have no plan: the first of them is told, operands before their operator, the left one before the
// right one.
use super::*;
use step_core::PlanError;

// So many states that an until without a bound has too large a table at the greatest number of jumps, and one within the time
// 8178 looks at 16386 jumps, which are too many.
const WIDE: Files<'static> = Files {
    tra: b"STATES 512\nTRANSITIONS 1\n1 2 1\n",
    lab: b"#DECLARATION\na\n#END\n2 a\n",
};

const MOST_JUMPS: Options = Options {
    workers: 1,
    bits: 30,
    jumps: 16_384,
    watch: 0,
    state: 0,
    until_decided: false,
};

fn check_refused<R: Threads + Sync + Abort>(
    rt: &R,
    alloc: Global,
    line: &[u8],
    expected: PlanError,
) -> Result<(), Fail> {
    match ask_gated(rt, alloc, WIDE, line, MOST_JUMPS, &OpenGate)? {
        Err(fault) => assert_eq!(rt; fault, CheckFault::Refused(expected), "{line:?}"),
        Ok(_) => return Err(Fail::from("answered")),
    }
    Ok(())
}

#[test]
fn an_operand_is_refused(rt: HostRuntime) -> Result<(), Fail> {
    let alloc = rt.alloc();
    check_refused(&rt, alloc, b"!P{>0}[tt U[0,8178] a]", PlanError::TooLong)?;
    check_refused(&rt, alloc, b"P{>0}[X P{>0}[tt U a]]", PlanError::TooLarge)?;
    check_refused(&rt, alloc, b"a && P{>0}[tt U a]", PlanError::TooLarge)?;
    check_refused(
        &rt,
        alloc,
        b"P{>0}[tt U[0,1] a] || P{>0}[tt U[0,8178] a]",
        PlanError::TooLong,
    )
}

#[test]
fn the_left_operand_comes_first(rt: HostRuntime) -> Result<(), Fail> {
    let alloc = rt.alloc();
    check_refused(
        &rt,
        alloc,
        b"P{>0}[tt U a] && P{>0}[tt U[0,8178] a]",
        PlanError::TooLarge,
    )?;
    check_refused(
        &rt,
        alloc,
        b"P{>0}[tt U[0,8178] a] || P{>0}[tt U a]",
        PlanError::TooLong,
    )?;
    check_refused(
        &rt,
        alloc,
        b"P{>0}[P{>0}[tt U a] U[0,1] P{>0}[tt U[0,8178] a]]",
        PlanError::TooLarge,
    )?;
    check_refused(
        &rt,
        alloc,
        b"P{>0}[P{>0}[tt U[0,8178] a] U[0,1] P{>0}[tt U a]]",
        PlanError::TooLong,
    )
}

#[test]
fn the_operator_comes_last(rt: HostRuntime) -> Result<(), Fail> {
    let alloc = rt.alloc();
    check_refused(
        &rt,
        alloc,
        b"P{>0}[P{>0}[tt U a] U[0,8178] a]",
        PlanError::TooLarge,
    )?;
    check_refused(
        &rt,
        alloc,
        b"P{>0}[tt U[0,8178] P{>0}[tt U a]]",
        PlanError::TooLarge,
    )?;
    check_refused(
        &rt,
        alloc,
        b"P{>0}[tt U P{>0}[tt U[0,8178] a]]",
        PlanError::TooLong,
    )?;
    check_refused(
        &rt,
        alloc,
        b"P{>0}[P{>0}[X a] U[0,8178] P{>0}[tt U[0,1] a]]",
        PlanError::TooLong,
    )
}
