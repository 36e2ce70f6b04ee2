// The files of a model: what is read of them, and what is told of a fault.
use super::*;
use decimal_text::NumberFault;
use text_lines::FileWhat;

// A fault of one of the files, and its line.
fn fault(file: Which, line: u64, what: FileWhat) -> Status {
    Status::Model(ModelFault { file, line, what })
}

// Each with its first fault; what comes after it doesn't count.
#[test]
fn a_fault_of_the_chain_is_told_at_its_line(rt: HostRuntime) -> Result<(), Fail> {
    let cases: [(&[u8], u64, FileWhat, &str); 12] = [
        (b"", 1, FileWhat::Header, "Header"),
        (b"\n\nSTATE 3\n", 3, FileWhat::Header, "Header"),
        (b"STATES 0\n", 1, FileWhat::StatesRange, "StatesRange"),
        (
            b"STATES 3\r\nTRANSITIONS 1000001",
            2,
            FileWhat::TransitionsRange,
            "TransitionsRange",
        ),
        (
            b"STATES 2\nTRANSITIONS 3\n1 2 1\n2 1 1\n",
            5,
            FileWhat::Count,
            "Count",
        ),
        (
            b"STATES 2\nTRANSITIONS 1\n1 2 1\n\nx\n",
            5,
            FileWhat::Count,
            "Count",
        ),
        (
            b"STATES 2\nTRANSITIONS 2\n1 2\n1 2 3\n",
            3,
            FileWhat::Word,
            "Word",
        ),
        (
            b"STATES 2\nTRANSITIONS 2\n1 3 x\n1 2 3\n",
            3,
            FileWhat::StateRange,
            "StateRange",
        ),
        (
            b"STATES 2\nTRANSITIONS 2\n1 2 -1\n1 2 3\n",
            3,
            FileWhat::Number(NumberFault::NotNumber),
            "Number NotNumber",
        ),
        (
            b"STATES 2\nTRANSITIONS 2\n1 2 1e-19\n1 2 3\n",
            3,
            FileWhat::Number(NumberFault::TooFine),
            "Number TooFine",
        ),
        (
            b"STATES 2\nTRANSITIONS 2\n1 2 1\n1 2 0\n",
            4,
            FileWhat::Repeated,
            "Repeated",
        ),
        (
            b"STATES 3\nTRANSITIONS 2\n1 2 922337203685477580\n1 3 0.8\n",
            4,
            FileWhat::RateRange,
            "RateRange",
        ),
    ];
    for (tra, line, what, name) in cases {
        let text = format!(in rt.alloc(); "refused tra line {line} {name}\n")?;
        let status = fault(Which::TraFile, line, what);
        expect(&rt, Input::ctmc(tra, LAB, FORMULA), status, text.as_str())?;
    }
    Ok(())
}

// CR LF, tabs, blank lines, leading zeros, decimal rates, rates of 0, and no LF at the end.
#[test]
fn a_chain_may_be_written_as_tools_do(rt: HostRuntime) -> Result<(), Fail> {
    let tra =
        b"\r\nSTATES\t03\r\n\r\n  TRANSITIONS 4\r\n1 2 3e-1\r\n1 3 0.70\r\n2 1 0.000\r\n3 003 0e9";
    for cut in [0, 1] {
        let (status, text) = serve_input(&rt, Input::ctmc(tra, LAB, FORMULA), cut)?;
        assert_eq!(rt; status, Status::Done);
        assert_eq!(rt; str::from_utf8(&text)?, ANSWER);
    }
    Ok(())
}

// Each with its first fault over three states; the chain's file is right.
#[test]
fn a_fault_of_the_labels_is_told_at_its_line(rt: HostRuntime) -> Result<(), Fail> {
    let cases: [(&[u8], u64, FileWhat, &str); 8] = [
        (b"", 1, FileWhat::Header, "Header"),
        (b"#DECLARATION\na\n", 3, FileWhat::Header, "Header"),
        (b"#DECLARATION\n1\n#END\n", 2, FileWhat::Name, "Name"),
        (
            b"#DECLARATION\na b\na\n#END\n",
            3,
            FileWhat::RepeatedName,
            "RepeatedName",
        ),
        (b"#DECLARATION\na\n#END\nx a\n", 4, FileWhat::Word, "Word"),
        (
            b"#DECLARATION\na\n#END\n4 a\n",
            4,
            FileWhat::StateRange,
            "StateRange",
        ),
        (
            b"#DECLARATION\na\n#END\n\n2 b\n",
            5,
            FileWhat::Undeclared,
            "Undeclared",
        ),
        (b"#DECLARATION\nquit\n#END\n", 2, FileWhat::Name, "Name"),
    ];
    for (lab, line, what, name) in cases {
        let text = format!(in rt.alloc(); "refused lab line {line} {name}\n")?;
        let status = fault(Which::LabFile, line, what);
        expect(&rt, Input::ctmc(TRA, lab, FORMULA), status, text.as_str())?;
    }
    Ok(())
}

// 64 names are accepted, and the 65th is refused at its line.
#[test]
fn there_are_at_most_64_labels(rt: HostRuntime) -> Result<(), Fail> {
    let alloc = rt.alloc();
    let mut lab = Vec::from_slice(alloc, b"#DECLARATION\na\n")?;
    for label in 1..65u32 {
        lab.extend_from_slice(format!(in alloc; "l{label}\n")?.as_bytes())?;
    }
    lab.extend_from_slice(b"#END\n2 a\n")?;
    let status = fault(Which::LabFile, 66, FileWhat::LabelsRange);
    expect(
        &rt,
        Input::ctmc(TRA, &lab, FORMULA),
        status,
        "refused lab line 66 LabelsRange\n",
    )?;
    let mut lab = Vec::from_slice(alloc, b"#DECLARATION\na\n")?;
    for label in 1..64u32 {
        lab.extend_from_slice(format!(in alloc; "l{label}\n")?.as_bytes())?;
    }
    lab.extend_from_slice(b"#END\n2 a l63\n")?;
    expect(&rt, Input::ctmc(TRA, &lab, FORMULA), Status::Done, ANSWER)
}

// The file of rewards is read after the others.
#[test]
fn a_model_with_rewards_has_three_files(rt: HostRuntime) -> Result<(), Fail> {
    let repeated = fault(Which::RewFile, 2, FileWhat::Repeated);
    let no_state = fault(Which::RewFile, 1, FileWhat::StateRange);
    let word = fault(Which::RewFile, 3, FileWhat::Word);
    let number = fault(Which::RewFile, 1, FileWhat::Number(NumberFault::TooBig));
    let scale = fault(Which::RewFile, 1, FileWhat::RewardScale);
    let cases: [(&[u8], Status, &str); 7] = [
        (b"2 1.5\n1 3\n", Status::Done, ANSWER),
        (b"", Status::Done, ANSWER),
        (b"1 1\n1 2\n", repeated, "refused rew line 2 Repeated\n"),
        (b"4 1\n1\n", no_state, "refused rew line 1 StateRange\n"),
        (b"1 1\n\n1\n", word, "refused rew line 3 Word\n"),
        (b"1 1e18\n", number, "refused rew line 1 Number TooBig\n"),
        (
            b"1 922337203685477581\n2 0.1\n",
            scale,
            "refused rew line 1 RewardScale\n",
        ),
    ];
    for (rew, status, text) in cases {
        let input = Input {
            words: CMRM,
            rew,
            ..Input::ctmc(TRA, LAB, FORMULA)
        };
        expect(&rt, input, status, text)?;
    }
    Ok(())
}
