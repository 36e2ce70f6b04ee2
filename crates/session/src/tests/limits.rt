// Limits, each from both sides.
use super::*;
use text_lines::FileWhat;

// A chain of three states in so many bytes, most of which are blanks.
fn padded_chain(alloc: Global, bytes: usize) -> Result<Vec<u8>, AllocError> {
    let mut tra = Vec::from_slice(alloc, TRA)?;
    let blanks = bytes.saturating_sub(tra.len());
    tra.extend_from_slice(&vec![in alloc; b' '; blanks]?)?;
    Ok(tra)
}

// 64 MiB is accepted, and a byte more is refused at no line.
#[test]
fn a_file_has_at_most_64_mebibytes(rt: HostRuntime) -> Result<(), Fail> {
    let tra = padded_chain(rt.alloc(), 67_108_864)?;
    expect(&rt, Input::ctmc(&tra, LAB, FORMULA), Status::Done, ANSWER)?;
    let tra = padded_chain(rt.alloc(), 67_108_865)?;
    let fault = ModelFault {
        file: Which::TraFile,
        line: 0,
        what: FileWhat::TooBig,
    };
    expect(
        &rt,
        Input::ctmc(&tra, LAB, FORMULA),
        Status::Model(fault),
        "refused tra line 0 TooBig\n",
    )
}

// A label, and so many ends of lines after it.
fn padded_formulas(alloc: Global, ends: usize) -> Result<Vec<u8>, AllocError> {
    let mut formulas = Vec::from_slice(alloc, b"a")?;
    formulas.extend_from_slice(&vec![in alloc; b'\n'; ends]?)?;
    Ok(formulas)
}

// 1 MiB is answered; with one byte more nothing is, and what stands in the lines doesn't count.
#[test]
fn the_formulas_have_at_most_a_mebibyte(rt: HostRuntime) -> Result<(), Fail> {
    let formulas = padded_formulas(rt.alloc(), 1_048_575)?;
    expect(&rt, Input::ctmc(STEP, LAB, &formulas), Status::Done, LABEL)?;
    let mut formulas = padded_formulas(rt.alloc(), 1_048_576)?;
    for _ in 0..2 {
        expect(
            &rt,
            Input::ctmc(STEP, LAB, &formulas),
            Status::Refused,
            "refused FormulasLong\n",
        )?;
        formulas.extend_from_slice(b"&\n")?;
    }
    Ok(())
}

// A line of so many blanks, and then these bytes.
fn padded_line(alloc: Global, blanks: usize, rest: &[u8]) -> Result<Vec<u8>, AllocError> {
    let mut line = vec![in alloc; b' '; blanks]?;
    line.extend_from_slice(rest)?;
    Ok(line)
}

// How many blanks, what comes after them, the status, and the text. A blank line, or `quit`, may be longer.
const LONG_LINES: &[(usize, &[u8], Status, &str)] = &[
    (4_095, b"a\r\n", Status::Done, LABEL),
    (
        4_096,
        b"a",
        Status::Refused,
        "refused line 1 column 4097 Length\n",
    ),
    (
        4_096,
        b"#\n\nb",
        Status::Refused,
        "refused line 1 column 4097 Length\nrefused line 3 column 1 UnknownLabel\n",
    ),
    (4_097, b"\na", Status::Done, LABEL),
    (4_093, b"quit\nb", Status::Done, ""),
    (
        5_000,
        b"quit a\n a",
        Status::Refused,
        "refused line 1 column 4097 Length\nformula a\n1 refuted\n2 satisfied\n",
    ),
];

#[test]
fn a_line_with_a_formula_has_at_most_4096_bytes(rt: HostRuntime) -> Result<(), Fail> {
    for (blanks, rest, status, text) in LONG_LINES {
        let formulas = padded_line(rt.alloc(), *blanks, rest)?;
        expect(&rt, Input::ctmc(STEP, LAB, &formulas), *status, text)?;
    }
    Ok(())
}

// A million transitions over 1,000 states, of which each leads to each, with the rate 1.
#[test]
fn a_million_transitions_are_read(rt: HostRuntime) -> Result<(), Fail> {
    let alloc = rt.alloc();
    let mut tra = Vec::from_slice(alloc, b"STATES 1000\nTRANSITIONS 1000000\n")?;
    for from in 1..1001u32 {
        for to in 1..1001u32 {
            tra.extend_from_slice(format!(in alloc; "{from} {to} 1\n")?.as_bytes())?;
        }
    }
    expect_front(
        &rt,
        Input::ctmc(&tra, LAB, b"P{>=0.001}[X a]"),
        "formula P{>=0.001}[X a]\n1 satisfied 0.001000000000 0.001000000000\n",
    )
}

const TOO_LONG: &[(&[u8], &[u8])] = &[
    (STEP, b"P{>=0.5}[tt U[0,8177.00000000000001] a]\n"),
    (STEP, b"P{<1}[tt U[0,8177.1] a]"),
    (TRA, b"P{>=0.5}[tt U[0,8.177000000000001e2] a]\n"),
];

const LONG_ENOUGH: &[(&[u8], &[u8], &str)] = &[
    (
        STEP,
        b"P{>=0.5}[tt U[0,8177] a]\n",
        "formula P{>=0.5}[tt U[0,8177] a]\nhorizon 16384\n1 satisfied 0.999999999999 1.000000000000\n2 satisfied 1.000000000000 1.000000000000\n",
    ),
    (
        TRA,
        b"P{>=0.5}[tt U[0,8.177e2] a]\n",
        "formula P{>=0.5}[tt U[0,817.7] a]\nhorizon 16384\n1 refuted 0.29999999999",
    ),
    (
        STILL,
        b"P{>=0.5}[tt U[0,999999999999999999] a]\n",
        "formula P{>=0.5}[tt U[0,999999999999999999] a]\nhorizon 30\n1 refuted 0.000000000000 0.000000000000\n",
    ),
];

// With exit rates of at most 1 the horizon is at most 16,384 up to the time 8177; with 10 it is up to 817.7.
#[test]
fn an_until_looks_at_16384_jumps_at_most(rt: HostRuntime) -> Result<(), Fail> {
    for (tra, formula) in TOO_LONG {
        let input = Input::ctmc(tra, LAB, formula);
        expect(&rt, input, Status::Refused, "refused line 1 TooLong\n")?;
    }
    for (tra, formula, front) in LONG_ENOUGH {
        expect_front(&rt, Input::ctmc(tra, LAB, formula), front)?;
    }
    Ok(())
}

pub(super) const WIDE: &[u8] = b"STATES 65536\nTRANSITIONS 1\n1 2 1\n";

// Over 65,536 states the tables fit up to 128 layers, that is to a horizon of 127.
#[test]
fn the_tables_of_an_until_have_8388608_words_at_most(rt: HostRuntime) -> Result<(), Fail> {
    expect(
        &rt,
        Input::ctmc(
            WIDE,
            LAB,
            b"P{>=0.5}[tt U[0,49] a]\n\nP{>=0.5}[tt U[0,9e3] a]",
        ),
        Status::Refused,
        "refused line 1 TooLarge\nrefused line 3 TooLong\n",
    )?;
    expect_front(
        &rt,
        Input::ctmc(WIDE, LAB, b"P{>=0.5}[tt U[0,48.5] a]\n"),
        "formula P{>=0.5}[tt U[0,48.5] a]\nhorizon 127\n1 satisfied 0.999999999999 1.000000000000\n2 satisfied 1.000000000000 1.000000000000\n3 refuted 0.000000000000 0.000000000000\n",
    )
}
