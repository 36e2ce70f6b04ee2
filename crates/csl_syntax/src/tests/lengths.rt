use super::*;

// The front so often, then the middle, then the back so often.
fn nest(
    alloc: Global,
    count: usize,
    front: &[u8],
    middle: &[u8],
    back: &[u8],
) -> Result<Vec<u8>, AllocError> {
    let mut line = Vec::new(alloc);
    for _ in 0..count {
        line.extend_from_slice(front)?;
    }
    line.extend_from_slice(middle)?;
    for _ in 0..count {
        line.extend_from_slice(back)?;
    }
    Ok(line)
}

#[test]
fn constructs_are_nested_64_deep(rt: HostRuntime) -> Result<(), Fail> {
    let alloc = rt.alloc();
    for (front, middle, back, column) in [
        (b"!".as_slice(), b"a".as_slice(), b"".as_slice(), 65),
        (b"(", b"a", b")", 65),
        (b"P{<1}[X ", b"a", b"]", 513),
        (b"P{<1}[", b"a", b" U a]", 385),
        (b"P{<1}[a U[0,1]", b"a", b"]", 897),
        (b"b && (", b"a", b")", 390),
    ] {
        let deep = nest(alloc, 64, front, middle, back)?;
        assert!(rt; read(&rt, alloc, &deep).is_ok(), "{front:?}");
        let deeper = nest(alloc, 65, front, middle, back)?;
        check_fault(&rt, alloc, &deeper, column, FormulaWhat::Depth);
    }
    Ok(())
}

#[test]
fn constructs_that_are_at_their_end_do_not_count(rt: HostRuntime) -> Result<(), Fail> {
    let alloc = rt.alloc();
    let mut line = nest(alloc, 63, b"(", b"!a", b")")?;
    line.extend_from_slice(b" && !a")?;
    assert!(rt; read(&rt, alloc, &line).is_ok());
    let deep = nest(alloc, 63, b"!", b"(a && !b)", b"")?;
    check_fault(&rt, alloc, &deep, 70, FormulaWhat::Depth);
    Ok(())
}

#[test]
fn a_line_has_at_most_4096_bytes(rt: HostRuntime) -> Result<(), Fail> {
    let alloc = rt.alloc();
    let line = nest(alloc, 4095, b" ", b"a", b"")?;
    assert_eq!(rt; line.len(), 4096);
    assert_eq!(rt; read(&rt, alloc, &line)?, Formula::Label(0));
    let longer = nest(alloc, 4096, b" ", b"a", b"")?;
    check_fault(&rt, alloc, &longer, 4097, FormulaWhat::Length);
    let faulty = nest(alloc, 4097, b"@", b"", b"")?;
    check_fault(&rt, alloc, &faulty, 4097, FormulaWhat::Length);
    let blank = nest(alloc, 4096, b" ", b"", b"")?;
    check_fault(&rt, alloc, &blank, 4097, FormulaWhat::Expected);
    Ok(())
}

// How many conjunctions are nested to the left.
fn conjunctions(formula: &Formula) -> u32 {
    let mut count = 0;
    let mut rest = formula;
    while let Formula::And(left, _) = rest {
        if count < u32::MAX {
            count += 1;
        }
        rest = left;
    }
    count
}

#[test]
fn long_chains_are_read_and_dropped(rt: HostRuntime) -> Result<(), Fail> {
    let alloc = rt.alloc();
    let line = nest(alloc, 1365, b"a&&", b"a", b"")?;
    assert_eq!(rt; line.len(), 4096);
    let formula = read(&rt, alloc, &line)?;
    assert_eq!(rt; conjunctions(&formula), 1365);
    let either = nest(alloc, 1365, b"a||", b"a", b"")?;
    assert!(rt; read(&rt, alloc, &either).is_ok());
    Ok(())
}
