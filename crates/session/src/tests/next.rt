// Next operators: verdicts and brackets.
use super::*;

#[test]
fn a_next_formula_is_answered_whatever_one_call_moves(rt: HostRuntime) -> Result<(), Fail> {
    for cut in [0, 1, 7] {
        let (status, text) = serve_input(&rt, Input::ctmc(TRA, LAB, FORMULA), cut)?;
        assert_eq!(rt; status, Status::Done, "at {cut}");
        assert_eq!(rt; str::from_utf8(&text)?, ANSWER, "at {cut}");
    }
    Ok(())
}

// The formula may name any of the declared labels; a state may have several, on several lines.
#[test]
fn any_declared_label_can_be_asked_for(rt: HostRuntime) -> Result<(), Fail> {
    let lab = b"#DECLARATION\r\nup a\r\ndown\r\n#END\r\n2 a\r\n1 up\r\n2 down down\r\n3\r\n2 up";
    let cases: [(&[u8], &str); 3] = [
        (FORMULA, ANSWER),
        (
            b"P{>0}[X down]",
            "formula P{>0}[X down]\n1 satisfied 0.300000000000 0.300000000000\n2 refuted 0.000000000000 0.000000000000\n3 refuted 0.000000000000 0.000000000000\n",
        ),
        (
            b"P{>=1}[tt U[0,0] up]",
            "formula P{>=1}[tt U[0,0] up]\nhorizon 30\n1 satisfied 1.000000000000 1.000000000000\n2 satisfied 1.000000000000 1.000000000000\n3 refuted 0.000000000000 0.000000000000\n",
        ),
    ];
    for (formula, want) in cases {
        expect(&rt, Input::ctmc(TRA, lab, formula), Status::Done, want)?;
    }
    expect(
        &rt,
        Input::ctmc(TRA, lab, b"P{>0}[X do]"),
        Status::Refused,
        "refused line 1 column 9 UnknownLabel\n",
    )
}

const SPELLED: &[&[u8]] = &[
    b"P{>=0.3}[X a]",
    b"P { >= 0.3 } [ X a ]\n",
    b"\tP{>=.30}[X(a)]\r\n",
    b"(P{>=3e-1}[X ((a))])",
];

#[test]
fn a_formula_may_be_spelled_freely(rt: HostRuntime) -> Result<(), Fail> {
    for formulas in SPELLED {
        expect(&rt, Input::ctmc(TRA, LAB, formulas), Status::Done, ANSWER)?;
    }
    Ok(())
}

// The rates of what satisfies the operand add up; what is never left has the probability 0 of any.
const SETS: &[(&[u8], &str)] = &[
    (
        b"P{>=0.7}[X (a || !b)]",
        "formula P{>=0.7}[X a || !b]\n1 refuted 0.300000000000 0.300000000000\n2 refuted 0.000000000000 0.000000000000\n3 refuted 0.000000000000 0.000000000000\n",
    ),
    (
        b"P{>=0.7}[X a || b]",
        "formula P{>=0.7}[X a || b]\n1 satisfied 1.000000000000 1.000000000000\n2 refuted 0.000000000000 0.000000000000\n3 refuted 0.000000000000 0.000000000000\n",
    ),
    (
        b"P{<0.7}[X !a]",
        "formula P{<0.7}[X !a]\n1 refuted 0.700000000000 0.700000000000\n2 satisfied 0.000000000000 0.000000000000\n3 satisfied 0.000000000000 0.000000000000\n",
    ),
    (
        b"P{>0}[X tt]",
        "formula P{>0}[X tt]\n1 satisfied 1.000000000000 1.000000000000\n2 refuted 0.000000000000 0.000000000000\n3 refuted 0.000000000000 0.000000000000\n",
    ),
    (
        b"P{<=0}[X a && b]",
        "formula P{<=0}[X a && b]\n1 satisfied 0.000000000000 0.000000000000\n2 satisfied 0.000000000000 0.000000000000\n3 satisfied 0.000000000000 0.000000000000\n",
    ),
];

#[test]
fn a_next_is_asked_of_any_set_of_states(rt: HostRuntime) -> Result<(), Fail> {
    for (formula, text) in SETS {
        let input = Input::ctmc(TRA, TWO_LABELS, formula);
        expect(&rt, input, Status::Done, text)?;
    }
    Ok(())
}

// State 1 has the probability 3/10: at a threshold that equals it, one unit of 10^-18 below it and one above.
#[test]
fn a_probability_is_compared_exactly(rt: HostRuntime) -> Result<(), Fail> {
    let cases = [
        ("<0.3", "<0.3", "refuted"),
        ("<=3e-1", "<=0.3", "satisfied"),
        (">.30", ">0.3", "refuted"),
        (">=00.3", ">=0.3", "satisfied"),
        ("<0.299999999999999999", "<0.299999999999999999", "refuted"),
        (
            "<=0.299999999999999999",
            "<=0.299999999999999999",
            "refuted",
        ),
        (
            ">0.299999999999999999",
            ">0.299999999999999999",
            "satisfied",
        ),
        (
            ">=0.299999999999999999",
            ">=0.299999999999999999",
            "satisfied",
        ),
        (
            "<0.300000000000000001",
            "<0.300000000000000001",
            "satisfied",
        ),
        (
            "<=0.300000000000000001",
            "<=0.300000000000000001",
            "satisfied",
        ),
        (">0.300000000000000001", ">0.300000000000000001", "refuted"),
        (
            ">=0.300000000000000001",
            ">=0.300000000000000001",
            "refuted",
        ),
    ];
    for (written, canonical, verdict) in cases {
        let formula = format!(in rt.alloc(); "P{{{written}}}[X a]\n")?;
        let front = format!(in rt.alloc();
            "formula P{{{canonical}}}[X a]\n1 {verdict} 0.300000000000 0.300000000000\n"
        )?;
        expect_front(
            &rt,
            Input::ctmc(TRA, LAB, formula.as_bytes()),
            front.as_str(),
        )?;
    }
    Ok(())
}

// A loop counts in the exit rate, and a state that is never left has the probability 0.
#[test]
fn a_bracket_is_rounded_outward(rt: HostRuntime) -> Result<(), Fail> {
    let tra = b"STATES 2\nTRANSITIONS 2\n1 1 1\n1 2 2\n";
    let text =
        "formula P{<=0}[X a]\n1 refuted 0.666666666666 0.666666666667\n2 satisfied 0.000000000000 0.000000000000\n";
    expect(
        &rt,
        Input::ctmc(tra, LAB, b"P{<=0}[X a]"),
        Status::Done,
        text,
    )
}

#[test]
fn the_worked_example_is_answered(rt: HostRuntime) -> Result<(), Fail> {
    let (status, out) = serve_example(&rt, rt.alloc())?;
    let text = str::from_utf8(out.bytes())?;
    assert_eq!(rt;
        text,
        "formula P{>=0.5}[X a]\n1 satisfied 1.000000000000 1.000000000000\n2 refuted 0.000000000000 0.000000000000\nrefused line 2 column 1 UnknownLabel\n"
    );
    assert_eq!(rt; status, Status::Refused);
    Ok(())
}
