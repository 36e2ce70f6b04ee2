// `!`, `&&` and `||` over three values.
use super::*;

// Nine states, one for each pair of verdicts of the two operands below: the first is satisfied in the states 1 to 3, refuted in
// 4 to 6, and undecided in 7 to 9, from which a state with the label a is entered at the rate 1; and so the second within each three.
const PAIRS: Files<'static> = Files {
    tra: b"STATES 9\nTRANSITIONS 5\n3 4 1\n6 4 1\n7 2 1\n8 2 1\n9 1 1\n",
    lab: b"#DECLARATION\na b\n#END\n1 a b\n2 a\n3 a\n4 b\n7 b\n",
};

const FIRST: &[u8] = b"P{>=0.632120559}[tt U[0,1] a]";

const SECOND: &[u8] = b"P{>=0.632120559}[tt U[0,1] b]";

// The two operands with this between them, or the first one alone where the other is none, has these verdicts.
fn check_joined<R: Threads + Sync + Abort>(
    rt: &R,
    alloc: Global,
    parts: [&[u8]; 3],
    expected: [Verdict; 9],
) -> Result<(), Fail> {
    let mut line = Vec::new(alloc);
    for part in parts {
        line.extend_from_slice(part)?;
    }
    check_verdicts(rt, alloc, PAIRS, &line, &expected)
}

#[test]
fn each_verdict_has_its_opposite(rt: HostRuntime) -> Result<(), Fail> {
    let alloc = rt.alloc();
    let opposites = [
        REFUTED, REFUTED, REFUTED, SATISFIED, SATISFIED, SATISFIED, UNDECIDED, UNDECIDED, UNDECIDED,
    ];
    check_joined(&rt, alloc, [b"!", FIRST, b""], opposites)?;
    let verdicts = [
        SATISFIED, SATISFIED, SATISFIED, REFUTED, REFUTED, REFUTED, UNDECIDED, UNDECIDED, UNDECIDED,
    ];
    check_joined(&rt, alloc, [b"!!", FIRST, b""], verdicts)
}

#[test]
fn each_pair_of_verdicts_under_and(rt: HostRuntime) -> Result<(), Fail> {
    let both = [
        SATISFIED, REFUTED, UNDECIDED, REFUTED, REFUTED, REFUTED, UNDECIDED, REFUTED, UNDECIDED,
    ];
    check_joined(&rt, rt.alloc(), [FIRST, b"&&", SECOND], both)
}

#[test]
fn each_pair_of_verdicts_under_or(rt: HostRuntime) -> Result<(), Fail> {
    let either = [
        SATISFIED, SATISFIED, SATISFIED, SATISFIED, REFUTED, UNDECIDED, SATISFIED, UNDECIDED,
        UNDECIDED,
    ];
    check_joined(&rt, rt.alloc(), [FIRST, b"||", SECOND], either)
}

#[test]
fn an_open_part_beside_one_that_decides(rt: HostRuntime) -> Result<(), Fail> {
    let alloc = rt.alloc();
    check_joined(&rt, alloc, [b"ff && ", FIRST, b""], [REFUTED; 9])?;
    check_joined(&rt, alloc, [FIRST, b" || ", b"tt"], [SATISFIED; 9])
}
