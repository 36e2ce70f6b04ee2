use super::*;

// The text of the formula for which the line stands, over the labels a, b and c.
fn printed(rt: &impl Abort, alloc: Global, line: &[u8]) -> Result<Vec<u8>, Fail> {
    let labels = labels_of(alloc, &[b"a", b"b", b"c"])?;
    assert_eq!(rt; labels.len(), 3);
    let formula = parse(alloc, line, &labels)?;
    formulas_are_over_labels();
    Ok(print(alloc, &formula, &labels)?)
}

// The line's formula has this text, and so has the text's.
fn check(rt: &impl Abort, alloc: Global, line: &[u8], text: &[u8]) -> Result<(), Fail> {
    assert_eq!(rt; printed(rt, alloc, line)?.as_slice(), text, "{line:?}");
    assert_eq!(rt; printed(rt, alloc, text)?.as_slice(), text, "{text:?}");
    Ok(())
}

#[test]
fn each_form_has_its_text(rt: HostRuntime) -> Result<(), Fail> {
    let alloc = rt.alloc();
    for (line, text) in [
        (b" tt ".as_slice(), b"tt".as_slice()),
        (b"ff", b"ff"),
        (b"((c))", b"c"),
        (b"! a", b"!a"),
        (b"a&&b", b"a && b"),
        (b"a||b", b"a || b"),
        (b"P{<0.5}[X a]", b"P{<0.5}[X a]"),
        (b"P { <= 0.5 } [ X(a) ]", b"P{<=0.5}[X a]"),
        (b"P{>0.5}[(a)U(b)]", b"P{>0.5}[a U b]"),
        (b"P{>=0.5}[a U[0,~]b]", b"P{>=0.5}[a U b]"),
        (b"P{>=0.5}[a U[0, 2]b]", b"P{>=0.5}[a U[0,2] b]"),
        (b"P{>=0.5}[a U [0,~] [0,2] b]", b"P{>=0.5}[a U[0,~][0,2] b]"),
    ] {
        check(&rt, alloc, line, text)?;
    }
    Ok(())
}

#[test]
fn numbers_are_printed_in_canonical_text(rt: HostRuntime) -> Result<(), Fail> {
    let alloc = rt.alloc();
    for (line, text) in [
        (b"P{<1.000}[X a]".as_slice(), b"P{<1}[X a]".as_slice()),
        (b"P{<00}[X a]", b"P{<0}[X a]"),
        (b"P{<.50}[X a]", b"P{<0.5}[X a]"),
        (b"P{<5E-2}[X a]", b"P{<0.05}[X a]"),
        (b"P{<1e-18}[X a]", b"P{<0.000000000000000001}[X a]"),
        (b"P{<1}[a U[0e5,2.5e3]b]", b"P{<1}[a U[0,2500] b]"),
        (b"P{<1}[a U[0,~][.0,12.25]b]", b"P{<1}[a U[0,~][0,12.25] b]"),
    ] {
        check(&rt, alloc, line, text)?;
    }
    Ok(())
}

#[test]
fn parentheses_stand_where_they_are_needed(rt: HostRuntime) -> Result<(), Fail> {
    let alloc = rt.alloc();
    for (line, text) in [
        (b"!(!a)".as_slice(), b"!!a".as_slice()),
        (b"!(a && b)", b"!(a && b)"),
        (b"!(a || b)", b"!(a || b)"),
        (b"(!a) && (!b)", b"!a && !b"),
        (b"(a && b) && c", b"a && b && c"),
        (b"a && (b && c)", b"a && (b && c)"),
        (b"(a || b) && c", b"(a || b) && c"),
        (b"a && (b || c)", b"a && (b || c)"),
        (b"(!a) || (!b)", b"!a || !b"),
        (b"(a && b) || c", b"a && b || c"),
        (b"a || (b && c)", b"a || b && c"),
        (b"(a || b) || c", b"a || b || c"),
        (b"a || (b || c)", b"a || (b || c)"),
        (b"!(P{<1}[X a])", b"!P{<1}[X a]"),
        (b"(P{<1}[X a]) && (P{<1}[X b])", b"P{<1}[X a] && P{<1}[X b]"),
        (b"P{<1}[X (a || b)]", b"P{<1}[X a || b]"),
        (b"P{<1}[(a || b) U (b && c)]", b"P{<1}[a || b U b && c]"),
        (b"P{<1}[(P{>0}[X !a]) U (!b)]", b"P{<1}[P{>0}[X !a] U !b]"),
    ] {
        check(&rt, alloc, line, text)?;
    }
    Ok(())
}

// The text of the longest conjunction that a line may have is longer than a line may be, and is printed whole.
#[test]
fn long_texts_are_not_cut(rt: HostRuntime) -> Result<(), Fail> {
    let alloc = rt.alloc();
    let mut line = b"a".to_vec(alloc)?;
    let mut text = b"a".to_vec(alloc)?;
    for _ in 0..1365 {
        line.extend_from_slice(b"&&b")?;
        text.extend_from_slice(b" && b")?;
    }
    assert_eq!(rt; line.len(), 4096);
    assert_eq!(rt; text.len(), 6826);
    assert_eq!(rt; printed(&rt, alloc, &line)?, text);
    Ok(())
}
