use super::*;
use decimal_text::Decimal;

const HALF: Decimal = Decimal { c: 5, x: 1 };

const TWO: Decimal = Decimal { c: 2, x: 0 };

fn not(alloc: Global, formula: Formula) -> Result<Formula, AllocError> {
    Ok(Formula::Not(Box::new(alloc, formula)?))
}

fn and(alloc: Global, left: Formula, right: Formula) -> Result<Formula, AllocError> {
    Ok(Formula::And(Box::new(alloc, left)?, Box::new(alloc, right)?))
}

fn or(alloc: Global, left: Formula, right: Formula) -> Result<Formula, AllocError> {
    Ok(Formula::Or(Box::new(alloc, left)?, Box::new(alloc, right)?))
}

fn next(alloc: Global, op: Op, formula: Formula) -> Result<Formula, AllocError> {
    Ok(Formula::Next(op, HALF, Box::new(alloc, formula)?))
}

// From a to b.
fn until(alloc: Global, op: Op, bound: Bound) -> Result<Formula, AllocError> {
    let left = Box::new(alloc, Formula::Label(0))?;
    let right = Box::new(alloc, Formula::Label(1))?;
    Ok(Formula::Until(op, HALF, left, bound, right))
}

// The line stands for the formula.
fn check(rt: &impl Abort, alloc: Global, line: &[u8], formula: Formula) -> Result<(), Fail> {
    assert_eq!(rt; read(rt, alloc, line)?, formula, "{line:?}");
    Ok(())
}

#[test]
fn constants_labels_and_parentheses_are_read(rt: HostRuntime) -> Result<(), Fail> {
    let alloc = rt.alloc();
    check(&rt, alloc, b"tt", Formula::Tt)?;
    check(&rt, alloc, b"ff", Formula::Ff)?;
    check(&rt, alloc, b"a", Formula::Label(0))?;
    check(&rt, alloc, b"c", Formula::Label(2))?;
    check(&rt, alloc, b"(b)", Formula::Label(1))
}

#[test]
fn boolean_operators_are_read(rt: HostRuntime) -> Result<(), Fail> {
    let alloc = rt.alloc();
    check(&rt, alloc, b"!a", not(alloc, Formula::Label(0))?)?;
    let both = and(alloc, Formula::Tt, Formula::Label(1))?;
    check(&rt, alloc, b"tt && b", both)?;
    let either = or(alloc, Formula::Ff, Formula::Label(2))?;
    check(&rt, alloc, b"ff || c", either)
}

#[test]
fn next_operators_are_read(rt: HostRuntime) -> Result<(), Fail> {
    let alloc = rt.alloc();
    for (line, op) in [
        (b"P{<0.5}[X a]".as_slice(), Op::Less),
        (b"P{<=0.5}[X a]".as_slice(), Op::AtMost),
        (b"P{>0.5}[X a]".as_slice(), Op::More),
        (b"P{>=0.5}[X a]".as_slice(), Op::AtLeast),
    ] {
        check(&rt, alloc, line, next(alloc, op, Formula::Label(0))?)?;
    }
    Ok(())
}

#[test]
fn until_operators_are_read(rt: HostRuntime) -> Result<(), Fail> {
    let alloc = rt.alloc();
    let time = until(alloc, Op::AtLeast, Bound::Time(TWO))?;
    check(&rt, alloc, b"P{>=0.5}[a U[0,2] b]", time)?;
    let reward = until(alloc, Op::Less, Bound::Reward(HALF))?;
    check(&rt, alloc, b"P{<0.5}[a U[0,~][0,0.5] b]", reward)?;
    let unbounded = until(alloc, Op::More, Bound::Unbounded)?;
    check(&rt, alloc, b"P{>0.5}[a U b]", unbounded)?;
    let unbounded = until(alloc, Op::More, Bound::Unbounded)?;
    check(&rt, alloc, b"P{>0.5}[a U[0,~] b]", unbounded)
}

#[test]
fn operators_group_to_the_left(rt: HostRuntime) -> Result<(), Fail> {
    let alloc = rt.alloc();
    for (line, grouped) in [
        (b"a && b && c".as_slice(), b"(a && b) && c".as_slice()),
        (b"a || b || c".as_slice(), b"(a || b) || c".as_slice()),
        (b"a && b || c".as_slice(), b"(a && b) || c".as_slice()),
        (b"a || b && c".as_slice(), b"a || (b && c)".as_slice()),
        (b"!a && b".as_slice(), b"(!a) && b".as_slice()),
        (b"!a || b".as_slice(), b"(!a) || b".as_slice()),
        (b"a && !b && c".as_slice(), b"(a && (!b)) && c".as_slice()),
        (b"!!a".as_slice(), b"!(!(a))".as_slice()),
        (
            b"!P{<0.5}[X a] && b".as_slice(),
            b"(!P{<0.5}[X a]) && b".as_slice(),
        ),
        (
            b"P{<1}[X a && b || c]".as_slice(),
            b"P{<1}[X ((a && b) || c)]".as_slice(),
        ),
        (
            b"P{<1}[a || b U b && c]".as_slice(),
            b"P{<1}[(a || b) U (b && c)]".as_slice(),
        ),
    ] {
        check_same(&rt, alloc, line, grouped)?;
    }
    Ok(())
}

#[test]
fn parentheses_group_otherwise(rt: HostRuntime) -> Result<(), Fail> {
    let alloc = rt.alloc();
    for (line, other) in [
        (b"a && b && c".as_slice(), b"a && (b && c)".as_slice()),
        (b"a || b || c".as_slice(), b"a || (b || c)".as_slice()),
        (b"a && b || c".as_slice(), b"a && (b || c)".as_slice()),
        (b"a || b && c".as_slice(), b"(a || b) && c".as_slice()),
        (b"!a && b".as_slice(), b"!(a && b)".as_slice()),
        (b"!a || b".as_slice(), b"!(a || b)".as_slice()),
    ] {
        check_other(&rt, alloc, line, other)?;
    }
    Ok(())
}

#[test]
fn blanks_part_tokens_and_need_not_be_there(rt: HostRuntime) -> Result<(), Fail> {
    let alloc = rt.alloc();
    for (line, other) in [
        (b"  a&&b||!c ".as_slice(), b"a && b || !c".as_slice()),
        (b"\ta\t&&\tb\t".as_slice(), b"a && b".as_slice()),
        (
            b"P { >= 0.5 } [ X ( a ) ]".as_slice(),
            b"P{>=0.5}[X a]".as_slice(),
        ),
        (
            b"P{<.5}[a U [ 0 , 2 ] b]".as_slice(),
            b"P{<.5}[a U[0,2]b]".as_slice(),
        ),
    ] {
        check_same(&rt, alloc, line, other)?;
    }
    check_fault(
        &rt,
        alloc,
        b"P{<.5}[aU[0,2]b]",
        8,
        FormulaWhat::UnknownLabel,
    );
    Ok(())
}

#[test]
fn numbers_may_be_spelled_in_many_ways(rt: HostRuntime) -> Result<(), Fail> {
    let alloc = rt.alloc();
    for line in [
        b"P{<0.50}[a U[0,2] b]".as_slice(),
        b"P{<.5}[a U[0,2.0] b]".as_slice(),
        b"P{<5e-1}[a U[0,2.] b]".as_slice(),
        b"P{<0.05E+1}[a U[00,02] b]".as_slice(),
        b"P{<0005E-1}[a U[0.0,20e-1] b]".as_slice(),
        b"P{<50e-02}[a U[0e9,0.2e1] b]".as_slice(),
    ] {
        check_same(&rt, alloc, line, b"P{<0.5}[a U[0,2] b]")?;
    }
    check_same(&rt, alloc, b"P{<1e0}[X a]", b"P{<1.000}[X a]")?;
    check_same(
        &rt,
        alloc,
        b"P{<0e99999999999999999999}[X a]",
        b"P{<0}[X a]",
    )
}

#[test]
fn names_may_begin_as_reserved_words(rt: HostRuntime) -> Result<(), Fail> {
    let alloc = rt.alloc();
    let words = [
        b"ttt".as_slice(),
        b"t",
        b"ff_",
        b"P1",
        b"X_",
        b"U0",
        b"quit2",
        b"S_",
        b"_",
        b"tT",
    ];
    let labels = labels_of(alloc, &words)?;
    assert_eq!(rt; labels.len(), 10);
    for (number, word) in words.iter().enumerate() {
        assert_eq!(rt; parse(alloc, word, &labels)?, Formula::Label(number as u32));
    }
    Ok(())
}

#[test]
fn the_first_of_two_equal_labels_is_meant(rt: HostRuntime) -> Result<(), Fail> {
    let alloc = rt.alloc();
    let labels = labels_of(alloc, &[b"b", b"a", b"a"])?;
    assert_eq!(rt; labels.len(), 3);
    assert_eq!(rt; parse(alloc, b"a", &labels)?, Formula::Label(1));
    Ok(())
}
