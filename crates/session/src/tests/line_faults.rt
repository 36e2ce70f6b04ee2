// Lines that are refused, each for its reason.
use super::*;

// Over the label `a` alone.
const FAULTS: &[(&[u8], &str)] = &[
    (b"a & a", "column 3 Token"),
    (b"a#", "column 2 Token"),
    (b"a\r", "column 2 Token"),
    (b"\xc3\xa4", "column 1 Token"),
    (b"P{>=1.2.3}[X a]", "column 5 Number"),
    (b"P{>0.1e-18}[X a]", "column 4 Number"),
    (b"P{>1e18}[X a]", "column 4 Number"),
    (b"P{>0.5}[X 1e19]", "column 11 Number"),
    (b"a &&", "column 5 Expected"),
    (b" \t (a", "column 6 Expected"),
    (b"S", "column 1 Expected"),
    (b"a b", "column 3 Expected"),
    (b"tt U a", "column 4 Expected"),
    (b"P{>=0.5}[tt U[1,2] a]", "column 15 Expected"),
    (b"b", "column 1 UnknownLabel"),
    (b"\ta && !(b)", "column 9 UnknownLabel"),
    (b"P{>=1.5}[X a]", "column 5 Threshold"),
    (b"P{>1.00000000000000001}[X b]", "column 4 Threshold"),
    (b"P{>1.000000000000000001}[X b]", "column 4 Number"),
    (
        b"!!!!!!!!!!!!!!!!!!!!!!!!!!!!!!!!!!!!!!!!!!!!!!!!!!!!!!!!!!!!!!!!!a",
        "column 65 Depth",
    ),
];

#[test]
fn each_fault_of_a_line_is_told_with_its_column(rt: HostRuntime) -> Result<(), Fail> {
    for (line, fault) in FAULTS {
        let text = format!(in rt.alloc(); "refused line 1 {fault}\n")?;
        let input = Input::ctmc(STEP, LAB, line);
        expect(&rt, input, Status::Refused, text.as_str())?;
    }
    Ok(())
}

const REWARD_BOUNDS: &[&[u8]] = &[
    b"P{>=0.5}[tt U[0,~][0,2] a]",
    b"!P{>=0.5}[tt U[0,~][0,2] a]",
    b"a && P{>=0.5}[tt U[0,~][0,2] a]",
    b"P{>=0.5}[tt U[0,~][0,2] a] || tt",
    b"P{>0}[X P{>=0.5}[tt U[0,~][0,2] a]]",
    b"P{>=0.5}[P{>=0.5}[tt U[0,~][0,2] a] U[0,1] a]",
    b"P{>=0.5}[tt U P{>=0.5}[tt U[0,~][0,2] a]]",
    b"P{>=0.5}[tt U[0,~][0,2] P{>0}[X a]]",
];

// Wherever in the formula the bound stands, of a model without rewards.
#[test]
fn a_bound_on_the_reward_wants_rewards(rt: HostRuntime) -> Result<(), Fail> {
    for line in REWARD_BOUNDS {
        let input = Input::ctmc(STEP, LAB, line);
        expect(&rt, input, Status::Refused, "refused line 1 NoRewards\n")?;
    }
    Ok(())
}

// The fault of a line comes before what is wrong with an until, and of two untils the first one's, operands before their
// operator.
#[test]
fn the_first_reason_of_a_refusal_is_told(rt: HostRuntime) -> Result<(), Fail> {
    expect(
        &rt,
        Input::ctmc(
            STEP,
            LAB,
            b"P{>=0.5}[tt U[0,~][0,2] b]\nP{>=0.5}[tt U[0,9e9] P{>0}[tt U[0,~][0,2] a]]\nP{>=0.5}[P{>0}[tt U[0,9e9] a] U[0,~][0,2] a]\nP{>=0.5}[tt U[0,9e9] a]\n",
        ),
        Status::Refused,
        "refused line 1 column 25 UnknownLabel\nrefused line 2 NoRewards\nrefused line 3 TooLong\nrefused line 4 TooLong\n",
    )
}

// Each of the reasons in one input, between two answers; the lines in between are blank.
#[test]
fn refused_lines_stand_between_answered_ones(rt: HostRuntime) -> Result<(), Fail> {
    expect(
        &rt,
        Input::ctmc(
            STEP,
            LAB,
            b"a\n\nP{>=0.5}[tt U[0,8177.1] a]\na & a\n \t\nP{>=0.5}[tt U[0,~][0,2] a]\n(a)\n",
        ),
        Status::Refused,
        "formula a\n1 refuted\n2 satisfied\nrefused line 3 TooLong\nrefused line 4 column 3 Token\nrefused line 6 NoRewards\nformula a\n1 refuted\n2 satisfied\n",
    )
}

// One refused line among any number of answered ones, wherever it stands.
#[test]
fn one_refused_line_is_enough_for_the_status(rt: HostRuntime) -> Result<(), Fail> {
    for formulas in [b"b\na\n", b"a\nb\n"] {
        let (status, _) = serve_input(&rt, Input::ctmc(STEP, LAB, formulas), 0)?;
        assert_eq!(rt; status, Status::Refused);
    }
    expect(
        &rt,
        Input::ctmc(STEP, LAB, b"a\na\n"),
        Status::Done,
        "formula a\n1 refuted\n2 satisfied\nformula a\n1 refuted\n2 satisfied\n",
    )
}
