// Which lines of the input are replied to: blank ones aren't, and `quit` ends them.
use super::*;

const NOTHING_ASKED: &[&[u8]] = &[
    b"",
    b"\n",
    b"\r\n",
    b" \t \n\t\r\n\n  ",
    b"quit",
    b"quit\n((\n",
    b"\n \tquit\t \r\n((",
];

#[test]
fn an_input_without_formulas_prints_nothing(rt: HostRuntime) -> Result<(), Fail> {
    for formulas in NOTHING_ASKED {
        expect(&rt, Input::ctmc(STEP, LAB, formulas), Status::Done, "")?;
    }
    Ok(())
}

// Each of these asks for the label once.
const ONE_LABEL: &[&[u8]] = &[
    b"a",
    b"a\n",
    b"a\r\n",
    b"\n\na",
    b"\r\n \t\r\n\ta \r\n",
    b" a\t\nquit\nb\n",
    b"a\nquit",
    b"(a)\n  quit  \n&",
];

#[test]
fn lines_are_ended_and_parted_as_in_files(rt: HostRuntime) -> Result<(), Fail> {
    for formulas in ONE_LABEL {
        for cut in [0, 1] {
            let (status, text) = serve_input(&rt, Input::ctmc(STEP, LAB, formulas), cut)?;
            assert_eq!(rt; str::from_utf8(&text)?, LABEL, "at {formulas:?}");
            assert_eq!(rt; status, Status::Done, "at {formulas:?}");
        }
    }
    Ok(())
}

// `quit` beside another word, or as a part of one, is no end, but a formula with a fault.
const NO_QUIT: &[(&[u8], &str)] = &[
    (
        b"quit a\na\n",
        "refused line 1 column 1 Expected\nformula a\n1 refuted\n2 satisfied\n",
    ),
    (
        b"a quit\na\n",
        "refused line 1 column 3 Expected\nformula a\n1 refuted\n2 satisfied\n",
    ),
    (
        b"quit quit\na\n",
        "refused line 1 column 1 Expected\nformula a\n1 refuted\n2 satisfied\n",
    ),
    (
        b"quits\na\n",
        "refused line 1 column 1 UnknownLabel\nformula a\n1 refuted\n2 satisfied\n",
    ),
    (
        b"QUIT\na\n",
        "refused line 1 column 1 UnknownLabel\nformula a\n1 refuted\n2 satisfied\n",
    ),
    (
        b"(quit)\na\n",
        "refused line 1 column 2 Expected\nformula a\n1 refuted\n2 satisfied\n",
    ),
    (b"quit\r", "refused line 1 column 1 Expected\n"),
];

#[test]
fn only_a_line_of_quit_alone_ends_the_input(rt: HostRuntime) -> Result<(), Fail> {
    for (formulas, text) in NO_QUIT {
        expect(&rt, Input::ctmc(STEP, LAB, formulas), Status::Refused, text)?;
    }
    Ok(())
}

// Blank lines are counted, whatever ends them, and so are lines that are answered.
#[test]
fn a_refusal_has_the_number_of_its_line(rt: HostRuntime) -> Result<(), Fail> {
    expect(
        &rt,
        Input::ctmc(STEP, LAB, b"\n\t\r\nb\n\na\nb\nquit\nb\n"),
        Status::Refused,
        "refused line 3 column 1 UnknownLabel\nformula a\n1 refuted\n2 satisfied\nrefused line 6 column 1 UnknownLabel\n",
    )
}

// An answer each, one after another, in the order of the lines.
#[test]
fn a_thousand_formulas_are_answered_in_one_run(rt: HostRuntime) -> Result<(), Fail> {
    let alloc = rt.alloc();
    let mut formulas = Vec::new(alloc);
    let mut text = String::new(alloc);
    for number in 0..1000u32 {
        let threshold = number + 1000;
        formulas.extend_from_slice(format!(in alloc; "P{{<0.{threshold}}}[X a]\n")?.as_bytes())?;
        let canonical = canonical_decimals(threshold);
        text.push_str(format!(in alloc; "formula P{{<0.{canonical}}}[X a]\n")?.as_str())?;
        text.push_str("1 refuted 1.000000000000 1.000000000000\n")?;
        text.push_str("2 satisfied 0.000000000000 0.000000000000\n")?;
    }
    expect(
        &rt,
        Input::ctmc(STEP, LAB, &formulas),
        Status::Done,
        text.as_str(),
    )
}

// The digits of at most four decimals, of which the first isn't 0, without the zeros at their end.
fn canonical_decimals(digits: u32) -> u32 {
    if digits % 1000 == 0 {
        digits / 1000
    } else if digits % 100 == 0 {
        digits / 100
    } else if digits % 10 == 0 {
        digits / 10
    } else {
        digits
    }
}
