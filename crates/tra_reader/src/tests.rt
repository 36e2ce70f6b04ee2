use super::*;
use decimal_text::NumberFault;
use model_core::{Lab, Model, Tra};
use std::alloc::{AllocError, Global};
use std::process::Abort;
use std::test::Fail;
use text_lines::{FileFault, FileWhat, ReadFault};

// The model of the chain, without labels.
fn model_of(alloc: Global, tra: Tra) -> Result<Model, AllocError> {
    let marks = vec![in alloc; 0u64; tra.n() as usize]?;
    Model::build(alloc, tra, Lab::new(Vec::new(alloc), marks), None)
}

// The text is read as the chain of so many states, with these transitions at this scale, in ascending order.
fn check_chain(
    rt: &impl Abort,
    alloc: Global,
    text: &[u8],
    n: u32,
    scale: u32,
    expected: &[(u32, u32, u64)],
) -> Result<(), Fail> {
    let tra = read_tra(alloc, text).ok().ok_or("refused")?;
    let model = model_of(alloc, tra)?;
    assert_eq!(rt; model.n(), n, "{text:?}");
    assert_eq!(rt; model.scale(), scale, "{text:?}");
    let mut found = Vec::new(alloc);
    for s in 0..model.n() {
        for rate in model.row(s) {
            found.push((rate.from, rate.to, rate.rate))?;
        }
    }
    assert_eq!(rt; found.as_slice(), expected, "{text:?}");
    Ok(())
}

// The text is refused for this, at this line.
fn check_fault(rt: &impl Abort, alloc: Global, text: &[u8], line: u64, what: FileWhat) {
    let fault = ReadFault::At(FileFault { line, what });
    assert_eq!(rt; read_tra(alloc, text).err(), Some(fault), "{text:?}");
}

#[test]
fn rates_are_taken_at_one_scale(rt: HostRuntime) -> Result<(), Fail> {
    let text =
        b"STATES 3\r\nTRANSITIONS 4\r\n2 1 1e-05\r\n1 2 0.333333333333\r\n2 3 2.5\r\n1 3 0.000000\r\n";
    let rates = [
        (0, 1, 333_333_333_333),
        (1, 0, 10_000_000),
        (1, 2, 2_500_000_000_000),
    ];
    check_chain(&rt, rt.alloc(), text, 3, 12, &rates)
}

// Each with its decimals and its digits.
#[test]
fn a_rate_is_a_number_in_any_spelling(rt: HostRuntime) -> Result<(), Fail> {
    let words: [(&[u8], u32, u64); 9] = [
        (b"0.63", 2, 63),
        (b"0.6321205590", 9, 632_120_559),
        (b"1e-05", 5, 1),
        (b"2.50E+3", 0, 2_500),
        (b".5", 1, 5),
        (b"7.", 0, 7),
        (b"0.30000000000000004", 17, 30_000_000_000_000_004),
        (b"999999999999999999", 0, 999_999_999_999_999_999),
        (b"1e-18", 18, 1),
    ];
    for (word, scale, digits) in words {
        let mut text = b"STATES 2\nTRANSITIONS 1\n1 2 ".to_vec(rt.alloc())?;
        text.extend_from_slice(word)?;
        check_chain(&rt, rt.alloc(), &text, 2, scale, &[(0, 1, digits)])?;
    }
    check_chain(
        &rt,
        rt.alloc(),
        b"STATES 2\nTRANSITIONS 1\n1 2 0.000000\n",
        2,
        0,
        &[],
    )
}

#[test]
fn blank_lines_and_leading_zeros_are_passed_over(rt: HostRuntime) -> Result<(), Fail> {
    let text =
        b"\n \t\nSTATES\t002\n\nTRANSITIONS 000000000000000000000000000002 \n\n\t01 002  3\r\n\n2 2 4";
    check_chain(&rt, rt.alloc(), text, 2, 0, &[(0, 1, 3), (1, 1, 4)])
}

#[test]
fn there_may_be_no_transitions(rt: HostRuntime) -> Result<(), Fail> {
    check_chain(&rt, rt.alloc(), b"STATES 1\nTRANSITIONS 0", 1, 0, &[])?;
    check_chain(
        &rt,
        rt.alloc(),
        b"STATES 2\nTRANSITIONS 1\n1 2 0.00\n",
        2,
        0,
        &[],
    )
}

#[test]
fn states_may_be_as_many_as_65536(rt: HostRuntime) -> Result<(), Fail> {
    let text = b"STATES 65536\nTRANSITIONS 2\n65536 65536 1\n1 65536 2\n";
    let rates = [(0, 65_535, 2), (65_535, 65_535, 1)];
    check_chain(&rt, rt.alloc(), text, 65_536, 0, &rates)
}

#[test]
fn the_head_comes_first(rt: HostRuntime) {
    let alloc = rt.alloc();
    for (text, line) in [
        (b"".as_slice(), 1),
        (b"\n\n", 3),
        (b"STATES", 1),
        (b"STATES 2 3", 1),
        (b"STATES -2", 1),
        (b"states 2", 1),
        (b"\nSTATES 2\r \n", 2),
        (b"TRANSITIONS 1\nSTATES 2\n", 1),
        (b"STATES 2", 2),
        (b"STATES 2\n\n", 3),
        (b"STATES 2\nTRANSITIONS\n", 2),
        (b"STATES 2\nTRANSITIONS 1.0\n", 2),
        (b"STATES 2\n1 2 1\n", 2),
    ] {
        check_fault(&rt, alloc, text, line, FileWhat::Header);
    }
}

#[test]
fn the_counts_have_limits(rt: HostRuntime) {
    let alloc = rt.alloc();
    check_fault(
        &rt,
        alloc,
        b"STATES 65536\nTRANSITIONS 1000000\n",
        3,
        FileWhat::Count,
    );
    check_fault(
        &rt,
        alloc,
        b"STATES 65537\nTRANSITIONS x\n",
        1,
        FileWhat::StatesRange,
    );
    check_fault(&rt, alloc, b"STATES 000\n", 1, FileWhat::StatesRange);
    check_fault(
        &rt,
        alloc,
        b"STATES 99999999999999999999\n",
        1,
        FileWhat::StatesRange,
    );
    check_fault(
        &rt,
        alloc,
        b"STATES 1\nTRANSITIONS 1000001\n",
        2,
        FileWhat::TransitionsRange,
    );
}

#[test]
fn lines_are_as_many_as_the_head_says(rt: HostRuntime) {
    let alloc = rt.alloc();
    for (text, line) in [
        (b"STATES 2\nTRANSITIONS 3\n1 2 1\n2 1 1\n".as_slice(), 5),
        (b"STATES 2\nTRANSITIONS 3\n1 2 1\n2 1 1\n\n \n", 7),
        (b"STATES 2\nTRANSITIONS 1\n1 2 1\n\n2 1 1\nx\n", 5),
        (b"STATES 2\nTRANSITIONS 0\nx y z\n", 3),
    ] {
        check_fault(&rt, alloc, text, line, FileWhat::Count);
    }
}

#[test]
fn each_line_is_two_states_and_a_rate(rt: HostRuntime) {
    let alloc = rt.alloc();
    let not_number = FileWhat::Number(NumberFault::NotNumber);
    for (line, what) in [
        (b"1 2".as_slice(), FileWhat::Word),
        (b"1 2 3 4", FileWhat::Word),
        (b"a 2 1", FileWhat::Word),
        (b"1 -2 1", FileWhat::Word),
        (b"0 +1 x", FileWhat::Word),
        (b"1 2.0 1", FileWhat::Word),
        (b"1 2 1\r 3", FileWhat::Word),
        (b"0 1 1", FileWhat::StateRange),
        (b"1 0 1", FileWhat::StateRange),
        (b"3 1 1", FileWhat::StateRange),
        (b"1 3 x", FileWhat::StateRange),
        (b"1 99999999999999999999 1", FileWhat::StateRange),
        (b"1 2 x", not_number),
        (b"1 2 -1", not_number),
        (b"1 2 1\r2", not_number),
        (b"2 1 1e", not_number),
        (b"1 2 .", not_number),
        (b"1 2 1.2.3", not_number),
        (b"1 2 nan", not_number),
        (b"1 2 1e-19", FileWhat::Number(NumberFault::TooFine)),
        (b"1 2 1e18", FileWhat::Number(NumberFault::TooBig)),
    ] {
        check_line(&rt, alloc, line, what);
    }
}

// Between two right lines of transitions of two states, this line is refused for this.
fn check_line(rt: &impl Abort, alloc: Global, line: &[u8], what: FileWhat) {
    if let Ok(text) = with_line(alloc, line) {
        check_fault(rt, alloc, &text, 4, what);
    }
}

fn with_line(alloc: Global, line: &[u8]) -> Result<Vec<u8>, AllocError> {
    let mut text = b"STATES 2\nTRANSITIONS 3\n2 2 1\n".to_vec(alloc)?;
    text.extend_from_slice(line)?;
    text.extend_from_slice(b"\n1 1 1\n")?;
    Ok(text)
}

#[test]
fn a_pair_of_states_stands_once(rt: HostRuntime) {
    let alloc = rt.alloc();
    for (text, line) in [
        (b"STATES 2\nTRANSITIONS 2\n1 2 1\n1 2 0\n".as_slice(), 4),
        (b"STATES 2\nTRANSITIONS 4\n2 1 0\n1 2 1\n2 1 1\n1 2 1\n", 5),
        (
            b"STATES 2\nTRANSITIONS 4\n2 2 0\n1 2 1\n\n1 2 1\n2 2 1\n",
            6,
        ),
    ] {
        check_fault(&rt, alloc, text, line, FileWhat::Repeated);
    }
}

#[test]
fn the_first_fault_is_told(rt: HostRuntime) {
    let alloc = rt.alloc();
    let repeated = FileWhat::Repeated;
    check_fault(
        &rt,
        alloc,
        b"STATES 2\nTRANSITIONS 3\n1 2 1\n1 2 1\nx 2 1\n",
        4,
        repeated,
    );
    check_fault(
        &rt,
        alloc,
        b"STATES 2\nTRANSITIONS 3\n1 2 1\n1 2 1\n",
        4,
        repeated,
    );
    check_fault(
        &rt,
        alloc,
        b"STATES 2\nTRANSITIONS 2\n1 2 1\n1 2 1\n1 1 1\n",
        4,
        repeated,
    );
    check_fault(
        &rt,
        alloc,
        b"STATES 2\nTRANSITIONS 3\n1 2 1\nx 2 1\n1 2 1\n",
        4,
        FileWhat::Word,
    );
    check_fault(
        &rt,
        alloc,
        b"STATES 2\nTRANSITIONS 2\n1 2 1\n1 3 1\nx",
        4,
        FileWhat::StateRange,
    );
    check_fault(
        &rt,
        alloc,
        b"STATES 2\nTRANSITIONS 3\n1 2 1\n1 2 x\n1 2 1\n",
        4,
        FileWhat::Number(NumberFault::NotNumber),
    );
    check_fault(
        &rt,
        alloc,
        b"STATES 2\nTRANSITIONS 2\n1 2 999999999999999999\n1 1 999999999999999999\nx",
        5,
        FileWhat::Count,
    );
}

#[test]
fn rates_out_of_a_state_stay_below_2_63(rt: HostRuntime) -> Result<(), Fail> {
    let alloc = rt.alloc();
    let text = b"STATES 3\nTRANSITIONS 2\n1 2 922337203685477580\n1 3 0.7\n";
    let rates = [(0, 1, 9_223_372_036_854_775_800), (0, 2, 7)];
    check_chain(&rt, alloc, text, 3, 1, &rates)?;
    check_fault(
        &rt,
        alloc,
        b"STATES 3\nTRANSITIONS 3\n1 2 922337203685477580\n1 3 0.8\n2 3 1\n",
        4,
        FileWhat::RateRange,
    );
    check_fault(
        &rt,
        alloc,
        b"STATES 3\nTRANSITIONS 3\n1 2 1\n2 3 999999999999999999\n3 1 1e-18\n",
        4,
        FileWhat::RateRange,
    );
    Ok(())
}
