use super::*;

#[test]
fn the_first_fault_is_told_at_its_column(rt: HostRuntime) {
    let alloc = rt.alloc();
    for (line, column, what) in [
        (b"P{>=1.5}[X a]".as_slice(), 5, FormulaWhat::Threshold),
        (b"a &&".as_slice(), 5, FormulaWhat::Expected),
        (b"d".as_slice(), 1, FormulaWhat::UnknownLabel),
        (b"a & a".as_slice(), 3, FormulaWhat::Token),
        (
            b"P{>=0.5}[tt U[1,2] a]".as_slice(),
            15,
            FormulaWhat::Expected,
        ),
        (b"P{>=1.2.3}[X a]".as_slice(), 5, FormulaWhat::Number),
    ] {
        check_fault(&rt, alloc, line, column, what);
    }
}

#[test]
fn later_faults_are_not_told(rt: HostRuntime) {
    let alloc = rt.alloc();
    for (line, column, what) in [
        (b"a @ d 1.2.3".as_slice(), 3, FormulaWhat::Token),
        (b"a && 1.2 d @".as_slice(), 6, FormulaWhat::Expected),
        (b"a && .. d @".as_slice(), 6, FormulaWhat::Number),
        (b"a && d @ 1.2.3".as_slice(), 6, FormulaWhat::UnknownLabel),
        (b"P{<2}[d @".as_slice(), 4, FormulaWhat::Threshold),
        (b"a d".as_slice(), 3, FormulaWhat::Expected),
        (b"a 1.2.3".as_slice(), 3, FormulaWhat::Number),
        (b"a $".as_slice(), 3, FormulaWhat::Token),
        (b"P{<d}".as_slice(), 4, FormulaWhat::Expected),
        (b"2".as_slice(), 1, FormulaWhat::Expected),
    ] {
        check_fault(&rt, alloc, line, column, what);
    }
}

#[test]
fn bytes_that_begin_no_token_are_told(rt: HostRuntime) {
    let alloc = rt.alloc();
    for (line, column) in [
        (b"|".as_slice(), 1),
        (b"a|b".as_slice(), 2),
        (b"a &&& b".as_slice(), 5),
        (b"a && b\r".as_slice(), 7),
        (b"a \r&& b".as_slice(), 3),
        (b"=".as_slice(), 1),
        (b"P{=0.5}".as_slice(), 3),
        (b"P{<-1}".as_slice(), 4),
        (b"\xc3\xa9".as_slice(), 1),
        (b"a\0".as_slice(), 2),
        (b"+".as_slice(), 1),
    ] {
        check_fault(&rt, alloc, line, column, FormulaWhat::Token);
    }
}

#[test]
fn numbers_that_are_none_are_told(rt: HostRuntime) {
    let alloc = rt.alloc();
    for (line, column) in [
        (b".".as_slice(), 1),
        (b"P{<1.2.}[X a]".as_slice(), 4),
        (b"P{<1e-19}[X a]".as_slice(), 4),
        (b"P{<1000000000000000000}[X a]".as_slice(), 4),
        (b"P{<0.5}[a U[0,1e18] b]".as_slice(), 15),
        (b"P{<0.5}[a U[..,1] b]".as_slice(), 13),
    ] {
        check_fault(&rt, alloc, line, column, FormulaWhat::Number);
    }
}

#[test]
fn tokens_with_which_no_formula_goes_on_are_told(rt: HostRuntime) {
    let alloc = rt.alloc();
    for (line, column) in [
        (b"".as_slice(), 1),
        (b"   ".as_slice(), 4),
        (b"(a".as_slice(), 3),
        (b"a)".as_slice(), 2),
        (b"()".as_slice(), 2),
        (b"!".as_slice(), 2),
        (b"a!".as_slice(), 2),
        (b"a b".as_slice(), 3),
        (b"S".as_slice(), 1),
        (b"quit".as_slice(), 1),
        (b"X a".as_slice(), 1),
        (b"a U b".as_slice(), 3),
        (b"P a".as_slice(), 3),
        (b"P{0.5}".as_slice(), 3),
        (b"P{<}".as_slice(), 4),
        (b"P{<1e+}[X a]".as_slice(), 5),
        (b"P{<0.5>".as_slice(), 7),
        (b"P{<0.5}(X a)".as_slice(), 8),
        (b"P{<0.5}[X]".as_slice(), 10),
        (b"P{<0.5}[X a U b]".as_slice(), 13),
        (b"P{<0.5}[a]".as_slice(), 10),
        (b"P{<0.5}[a U b".as_slice(), 14),
        (b"P{<0.5}[a U b U c]".as_slice(), 15),
        (b"P{<0.5}[(a U b)]".as_slice(), 12),
    ] {
        check_fault(&rt, alloc, line, column, FormulaWhat::Expected);
    }
}

#[test]
fn bounds_that_are_none_are_told(rt: HostRuntime) {
    let alloc = rt.alloc();
    for (line, column) in [
        (b"P{<0.5}[a U[~,1] b]".as_slice(), 13),
        (b"P{<0.5}[a U[0.1,1] b]".as_slice(), 13),
        (b"P{<0.5}[a U[0] b]".as_slice(), 14),
        (b"P{<0.5}[a U[0,] b]".as_slice(), 15),
        (b"P{<0.5}[a U[0,1][0,1] b]".as_slice(), 17),
        (b"P{<0.5}[a U[0,~][1,1] b]".as_slice(), 18),
        (b"P{<0.5}[a U[0,~][0,~] b]".as_slice(), 20),
        (b"P{<0.5}[a U[0,~] ]".as_slice(), 18),
    ] {
        check_fault(&rt, alloc, line, column, FormulaWhat::Expected);
    }
}

#[test]
fn thresholds_past_1_are_told(rt: HostRuntime) -> Result<(), Fail> {
    let alloc = rt.alloc();
    check_fault(&rt, alloc, b"P{<1.0000001}[X a]", 4, FormulaWhat::Threshold);
    check_fault(&rt, alloc, b"P{ >= 11e-1 }[X a]", 7, FormulaWhat::Threshold);
    check_same(&rt, alloc, b"P{<1.0000000}[X a]", b"P{<1}[X a]")?;
    check_same(
        &rt,
        alloc,
        b"P{<0.5}[a U[0,7] b]",
        b"P{<0.5}[(a) U[0,7] (b)]",
    )
}
