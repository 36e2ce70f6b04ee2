// Exit statuses, words that are no command, and calls that fail.
use super::*;
use text_lines::FileWhat;

#[test]
fn each_status_has_its_exit_code() {
    let fault = ModelFault {
        file: Which::TraFile,
        line: 1,
        what: FileWhat::Header,
    };
    prove_eq!(Status::Done.exit_code(), 0);
    prove_eq!(Status::Refused.exit_code(), 1);
    prove_eq!(Status::Usage.exit_code(), 2);
    prove_eq!(Status::Model(fault).exit_code(), 3);
    prove_eq!(Status::Outside(Fault::Read).exit_code(), 4);
    prove_eq!(Status::Outside(Fault::Write).exit_code(), 4);
    prove_eq!(Status::Memory.exit_code(), 5);
}

const NO_COMMANDS: &[&[&str]] = &[
    &[],
    &["mrmc_any", "ctmc", "M.tra"],
    &["mrmc_any", "cmrm", "M.tra", "M.lab"],
    &["mrmc_any", "ctmc", "M.tra", "M.lab", "M.rew"],
    &["mrmc_any", "cmrm", "M.tra", "M.lab", "-M.rew"],
    &["mrmc_any", "ctmc", "-M.tra", "M.lab"],
    &["mrmc_any", "ctmc", "M.tra", "--help"],
    &["ctmc", "M.tra", "M.lab"],
];

#[test]
fn words_that_are_no_command_are_answered_by_the_usage(rt: HostRuntime) -> Result<(), Fail> {
    for words in NO_COMMANDS {
        let input = Input {
            words,
            ..Input::ctmc(TRA, LAB, FORMULA)
        };
        expect(&rt, input, Status::Usage, USAGE)?;
    }
    Ok(())
}

const READ: Status = Status::Outside(Fault::Read);

const WRITE: Status = Status::Outside(Fault::Write);

// Which calls fail, the status, how many bytes of the answer are written, and how many calls failed.
const FAILURES: &[((u64, u64, u64), Status, usize, [u64; 3])] = &[
    ((1, 0, 0), READ, 0, [1, 0, 0]),
    ((2, 0, 0), READ, 0, [1, 0, 0]),
    ((0, 1, 0), READ, 0, [0, 1, 0]),
    ((0, 2, 0), READ, 0, [0, 1, 0]),
    ((0, 0, 1), WRITE, 0, [0, 0, 1]),
    ((0, 0, 2), WRITE, 22, [0, 0, 1]),
    ((0, 0, 3), WRITE, 64, [0, 0, 1]),
    ((0, 0, 4), WRITE, 104, [0, 0, 1]),
    ((0, 0, 5), WRITE, 144, [0, 0, 1]),
    ((0, 0, 6), Status::Done, 144, [0, 0, 0]),
];

// One call fails: of the files, of the formulas, or of the output, where the fifth call is the flush. It isn't made
// again, and a front of the answer is written.
#[test]
fn each_failing_call_is_told_apart(rt: HostRuntime) -> Result<(), Fail> {
    for (calls, status, lines, faults) in FAILURES {
        let (taking, reading, writing) = *calls;
        let fail = FailingCalls {
            taking,
            reading,
            writing,
        };
        let course = serve_failing(&rt, Input::ctmc(TRA, LAB, FORMULA), fail)?;
        assert_eq!(rt; course.status, *status, "at {fail:?}");
        let front = ANSWER.as_bytes().get(..*lines).unwrap_or_default();
        assert_eq!(rt;
            str::from_utf8(&course.written)?,
            str::from_utf8(front)?,
            "at {fail:?}"
        );
        assert_eq!(rt; course.faults, *faults, "at {fail:?}");
    }
    Ok(())
}

// The third file's name is asked for, and no such file is there.
#[test]
fn a_missing_file_is_a_read_fault(rt: HostRuntime) -> Result<(), Fail> {
    let input = Input {
        words: &["mrmc_any", "cmrm", "M.tra", "M.lab", "missing.rew"],
        ..Input::ctmc(TRA, LAB, FORMULA)
    };
    let fail = FailingCalls {
        taking: 0,
        reading: 0,
        writing: 0,
    };
    let course = serve_failing(&rt, input, fail)?;
    assert_eq!(rt; course.status, Status::Outside(Fault::Read));
    assert_eq!(rt; course.written.len(), 0);
    assert_eq!(rt; course.faults, [1, 0, 0]);
    Ok(())
}

// Of three replies, the second a refusal, with the flush after them. Each piece is one line of them.
const FRONTS: &[(u64, Status, &str)] = &[
    (1, WRITE, ""),
    (2, WRITE, "formula P{>=0.63}[tt U[0,1] a]\n"),
    (3, WRITE, "formula P{>=0.63}[tt U[0,1] a]\nhorizon 32\n"),
    (
        5,
        WRITE,
        "formula P{>=0.63}[tt U[0,1] a]\nhorizon 32\n1 satisfied 0.632120558828 0.632120559760\n2 satisfied 1.000000000000 1.000000000000\n",
    ),
    (
        6,
        WRITE,
        "formula P{>=0.63}[tt U[0,1] a]\nhorizon 32\n1 satisfied 0.632120558828 0.632120559760\n2 satisfied 1.000000000000 1.000000000000\nrefused line 2 column 1 UnknownLabel\n",
    ),
    (
        7,
        WRITE,
        "formula P{>=0.63}[tt U[0,1] a]\nhorizon 32\n1 satisfied 0.632120558828 0.632120559760\n2 satisfied 1.000000000000 1.000000000000\nrefused line 2 column 1 UnknownLabel\nformula a\n",
    ),
    (
        9,
        WRITE,
        "formula P{>=0.63}[tt U[0,1] a]\nhorizon 32\n1 satisfied 0.632120558828 0.632120559760\n2 satisfied 1.000000000000 1.000000000000\nrefused line 2 column 1 UnknownLabel\nformula a\n1 refuted\n2 satisfied\n",
    ),
    (
        10,
        Status::Refused,
        "formula P{>=0.63}[tt U[0,1] a]\nhorizon 32\n1 satisfied 0.632120558828 0.632120559760\n2 satisfied 1.000000000000 1.000000000000\nrefused line 2 column 1 UnknownLabel\nformula a\n1 refuted\n2 satisfied\n",
    ),
];

// What stands in place of the status is the write fault, whatever was answered before it.
#[test]
fn what_is_written_of_the_replies_is_a_front(rt: HostRuntime) -> Result<(), Fail> {
    let input = Input::ctmc(STEP, LAB, b"P{>=0.63}[tt U[0,1] a]\nb\na\n");
    for (writing, status, front) in FRONTS {
        let fail = FailingCalls {
            taking: 0,
            reading: 0,
            writing: *writing,
        };
        let course = serve_failing(&rt, input, fail)?;
        assert_eq!(rt; str::from_utf8(&course.written)?, *front);
        assert_eq!(rt; course.status, *status, "at {writing}");
    }
    Ok(())
}

// The one line of a refused file, of the usage, or of formulas that are too long fails as any other.
#[test]
fn a_refusal_that_can_not_be_written_is_a_write_fault(rt: HostRuntime) -> Result<(), Fail> {
    let faulty = Input::ctmc(b"STATES\n", LAB, FORMULA);
    let unspoken = Input {
        words: &["mrmc_any"],
        ..Input::ctmc(TRA, LAB, FORMULA)
    };
    for input in [faulty, unspoken, Input::ctmc(TRA, LAB, b"b\n")] {
        for writing in [1, 2] {
            let fail = FailingCalls {
                taking: 0,
                reading: 0,
                writing,
            };
            let course = serve_failing(&rt, input, fail)?;
            assert_eq!(rt; course.status, WRITE);
            assert_eq!(rt; course.written.is_empty(), writing == 1);
            assert_eq!(rt; course.faults, [0, 0, 1]);
        }
    }
    Ok(())
}
