// Formulas without a probability operator: verdicts alone.
use super::*;

const TRUTHS: &[(&[u8], &str)] = &[
    (b"tt", "formula tt\n1 satisfied\n2 satisfied\n3 satisfied\n"),
    (b"ff", "formula ff\n1 refuted\n2 refuted\n3 refuted\n"),
    (b"b", "formula b\n1 refuted\n2 refuted\n3 satisfied\n"),
    (
        b"!(a||b)",
        "formula !(a || b)\n1 satisfied\n2 refuted\n3 refuted\n",
    ),
    (
        b" ( ! a )&&( !b )",
        "formula !a && !b\n1 satisfied\n2 refuted\n3 refuted\n",
    ),
    (
        b"a||(b||ff)",
        "formula a || (b || ff)\n1 refuted\n2 satisfied\n3 satisfied\n",
    ),
    (
        b"a && !b || b && !a",
        "formula a && !b || b && !a\n1 refuted\n2 satisfied\n3 satisfied\n",
    ),
];

#[test]
fn a_formula_without_a_probability_has_verdicts_alone(rt: HostRuntime) -> Result<(), Fail> {
    for (line, text) in TRUTHS {
        expect(&rt, Input::ctmc(TRA, TWO_LABELS, line), Status::Done, text)?;
    }
    Ok(())
}

// 1,365 times the label, in 4,093 bytes; its text, with a blank on each side of the signs, is longer than a line may be.
#[test]
fn the_longest_conjunction_is_answered_with_its_text(rt: HostRuntime) -> Result<(), Fail> {
    let alloc = rt.alloc();
    let mut line = Vec::from_slice(alloc, b"a")?;
    let mut text = String::from_str(alloc, "formula a")?;
    for _ in 1u32..1_365 {
        line.extend_from_slice(b"&&a")?;
        text.push_str(" && a")?;
    }
    assert_eq!(rt; line.len(), 4_093);
    assert_eq!(rt; text.len(), 8 + 6_821);
    text.push_str("\n1 refuted\n2 satisfied\n")?;
    expect(
        &rt,
        Input::ctmc(STEP, LAB, &line),
        Status::Done,
        text.as_str(),
    )
}

// So many times `!(`, round the label.
fn nested(alloc: Global, pairs: u32) -> Result<Vec<u8>, AllocError> {
    let mut line = Vec::new(alloc);
    for _ in 0..pairs {
        line.extend_from_slice(b"!(")?;
    }
    line.push(b'a')?;
    for _ in 0..pairs {
        line.push(b')')?;
    }
    Ok(line)
}

// 32 negations and 32 parentheses may enclose a label, and no 33rd negation.
#[test]
fn a_label_may_stand_64_deep(rt: HostRuntime) -> Result<(), Fail> {
    let alloc = rt.alloc();
    expect(
        &rt,
        Input::ctmc(STEP, LAB, &nested(alloc, 32)?),
        Status::Done,
        "formula !!!!!!!!!!!!!!!!!!!!!!!!!!!!!!!!a\n1 refuted\n2 satisfied\n",
    )?;
    expect(
        &rt,
        Input::ctmc(STEP, LAB, &nested(alloc, 33)?),
        Status::Refused,
        "refused line 1 column 65 Depth\n",
    )?;
    expect(
        &rt,
        Input::ctmc(STEP, LAB, &nested(alloc, 64)?),
        Status::Refused,
        "refused line 1 column 65 Depth\n",
    )
}
