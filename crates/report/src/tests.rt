// The text of each kind of answer and of refusal, and how its lines are handed to a sink.
ghost use Rattle.std.specs.Prelude.{None, All, IsTrue};
ghost use Rattle.report.specs.Answer.{answer_lists};
ghost use Rattle.report.specs.AnswerText.{IsPrintable, IsWritable};

use super::*;
use csl_syntax::{FormulaFault, FormulaWhat, formulas_are_over_labels, parse};
use decimal_text::NumberFault;
use outside::{Failed, MemSink, PutFault, Sink, SureSink};
use std::alloc::{AllocError, Global};
use std::process::Abort;
use std::str;
use std::test::Fail;
use step_core::PlanError;
use text_lines::{FileFault, FileWhat, Name, is_name};

// What is shown of a probability operator, and then of each state the bracket.
#[derive(Clone, Copy)]
struct Brackets {
    horizon: Option<u32>,
    watched: &'static [Printed],
    states: &'static [Printed],
}

// A formula over the labels a and b, its answer, and what is to be printed.
#[derive(Clone, Copy)]
struct Kind {
    formula: &'static [u8],
    verdicts: &'static [Verdict],
    shown: Option<Brackets>,
    text: &'static str,
}

const LABEL: Kind = Kind {
    formula: b" ( b )",
    verdicts: &[Verdict::Refuted, Verdict::Satisfied, Verdict::Undecided],
    shown: None,
    text: "formula b\n1 refuted\n2 satisfied\n3 undecided\n",
};

const NEXT: Kind = Kind {
    formula: b"P{>=0.30}[X a]",
    verdicts: &[Verdict::Satisfied, Verdict::Refuted],
    shown: Some(Brackets {
        horizon: None,
        watched: &[],
        states: &[
            Printed {
                low: 300_000_000_000,
                high: 300_000_000_001,
            },
            Printed { low: 0, high: 1 },
        ],
    }),
    text: "formula P{>=0.3}[X a]\n1 satisfied 0.300000000000 0.300000000001\n2 refuted 0.000000000000 0.000000000001\n",
};

const UNTIL: Kind = Kind {
    formula: b"P{<0.5}[a U[0,1] b]",
    verdicts: &[Verdict::Undecided, Verdict::Refuted],
    shown: Some(Brackets {
        horizon: Some(32),
        watched: &[
            Printed {
                low: 0,
                high: 1_000_000_000_000,
            },
            Printed {
                low: 20,
                high: 999_999_999_999,
            },
        ],
        states: &[
            Printed {
                low: 499_999_999_999,
                high: 500_000_000_000,
            },
            Printed {
                low: 1_000_000_000_000,
                high: 1_000_000_000_000,
            },
        ],
    }),
    text: "formula P{<0.5}[a U[0,1] b]\nhorizon 32\nwatch 1 0.000000000000 1.000000000000\nwatch 2 0.000000000020 0.999999999999\n1 undecided 0.499999999999 0.500000000000\n2 refuted 1.000000000000 1.000000000000\n",
};

// The answer of the case.
fn answer_of(alloc: Global, kind: Kind) -> Result<Answer, AllocError> {
    let shown = match kind.shown {
        Some(brackets) => Some(Shown {
            horizon: brackets.horizon,
            watched: Vec::from_slice(alloc, brackets.watched)?,
            states: Vec::from_slice(alloc, brackets.states)?,
        }),
        None => None,
    };
    Ok(Answer {
        verdicts: Vec::from_slice(alloc, kind.verdicts)?,
        shown,
    })
}

fn labels(alloc: Global) -> Result<Vec<Name>, AllocError> {
    let mut labels = Vec::new(alloc);
    for word in [b"a", b"b"] {
        if is_name(word) {
            labels.push(Name::new(Vec::from_slice(alloc, word)?))?;
        }
    }
    Ok(labels)
}

fn are_printable(brackets: &[Printed]) -> bool
    ensures { IsTrue result → All IsPrintable brackets.now }
{
    brackets.iter().all(|bracket| bracket.low <= 1_000_000_000_000
        && bracket.high <= 1_000_000_000_000)
}

fn is_writable(answer: &Answer) -> bool
    ensures { IsTrue result → IsWritable (answer_lists answer.now) }
{
    match &answer.shown {
        Some(shown) => {
            shown.states.len() == answer.verdicts.len()
                && are_printable(&shown.watched)
                && are_printable(&shown.states)
        }
        None => true,
    }
}

// Writes the answer of the case.
fn write_kind<K: Sink>(
    rt: &impl Abort,
    alloc: Global,
    kind: Kind,
    out: &mut K,
) -> Result<Result<(), PutFault>, Fail> {
    let labels = labels(alloc)?;
    assert_eq!(rt; labels.len(), 2);
    let formula = parse(alloc, kind.formula, &labels)?;
    formulas_are_over_labels();
    let answer = answer_of(alloc, kind)?;
    if !is_writable(&answer) {
        return Err(Fail::from("the answer can't be printed"));
    }
    Ok(write_answer(alloc, &formula, &labels, &answer, out))
}

// Whether the sink takes all of a piece, or a byte a call, the whole text is written.
#[test]
fn each_kind_of_answer_has_its_lines(rt: HostRuntime) -> Result<(), Fail> {
    let alloc = rt.alloc();
    for kind in [LABEL, NEXT, UNTIL] {
        for cut in [0, 1] {
            let mut out = SureSink::new(b">".to_vec(alloc)?, cut);
            write_kind(&rt, alloc, kind, &mut out)??;
            let text = format!(in alloc; ">{}", kind.text)?;
            assert_eq!(rt; str::from_utf8(out.bytes())?, text.as_str());
        }
    }
    Ok(())
}

// A sink that takes all of each piece, and counts those that are one line and those that aren't.
#[derive(Drop)]
struct Pieces {
    lines: u64,
    others: u64,
}

impl Sink for Pieces {
    ghost written = { λ _. None };

    ghost flushed = { λ _. None };

    ghost fault_count = { λ _. 0 };

    fn faults(&self) -> u64 {
        0
    }

    fn write(&mut self, piece: &[u8]) -> Result<usize, PutFault> {
        if piece.iter().position(|byte| *byte == b'\n') == Some(piece.len() - 1) {
            self.lines = self.lines.saturating_add(1);
        } else {
            self.others = self.others.saturating_add(1);
        }
        Ok(piece.len())
    }

    fn flush(&mut self) -> Result<(), Failed> {
        Ok(())
    }
}

#[test]
fn each_line_is_one_piece(rt: HostRuntime) -> Result<(), Fail> {
    for (kind, lines) in [(LABEL, 4), (NEXT, 3), (UNTIL, 6)] {
        let mut out = Pieces {
            lines: 0,
            others: 0,
        };
        write_kind(&rt, rt.alloc(), kind, &mut out)??;
        assert_eq!(rt; (out.lines, out.others), (lines, 0));
    }
    Ok(())
}

// One call fails; the lines before its own are written, and no more calls are made.
#[test]
fn what_a_failing_sink_has_is_a_front(rt: HostRuntime) -> Result<(), Fail> {
    let alloc = rt.alloc();
    for failing in 1..8 {
        let mut out = MemSink::new(Vec::new(alloc), vec![in alloc; failing]?, 0);
        let result = write_kind(&rt, alloc, UNTIL, &mut out)?;
        let mut front = String::new(alloc);
        for line in UNTIL.text.split_inclusive('\n').take(failing as usize - 1) {
            front.push_str(line)?;
        }
        assert_eq!(rt; str::from_utf8(out.bytes())?, front.as_str());
        let (wanted, faults) = if failing < 7 {
            (Err(PutFault::Failed), 1)
        } else {
            (Ok(()), 0)
        };
        assert_eq!(rt; result, wanted, "at {failing}");
        assert_eq!(rt; out.faults(), faults, "at {failing}");
    }
    Ok(())
}

// A fault of each file: that of a number, one without a number, and that of a whole file.
#[test]
fn a_fault_names_its_file_its_line_and_itself(rt: HostRuntime) -> Result<(), Fail> {
    let alloc = rt.alloc();
    for (file, line, what, text) in [
        (
            Which::RewFile,
            3,
            FileWhat::Number(NumberFault::TooFine),
            "refused rew line 3 Number TooFine\n",
        ),
        (
            Which::LabFile,
            12,
            FileWhat::Undeclared,
            "refused lab line 12 Undeclared\n",
        ),
        (
            Which::TraFile,
            0,
            FileWhat::WatchState,
            "refused tra line 0 WatchState\n",
        ),
    ] {
        let mut out = SureSink::new(Vec::new(alloc), 0);
        write_fault(
            alloc,
            ModelFault::of(file, FileFault { line, what }),
            &mut out,
        )?;
        assert_eq!(rt; str::from_utf8(out.bytes())?, text);
    }
    Ok(())
}

#[test]
fn a_refused_line_names_its_number_and_the_column(rt: HostRuntime) -> Result<(), Fail> {
    let alloc = rt.alloc();
    let mut why = Vec::new(alloc);
    let fault = FormulaFault {
        column: 4097,
        what: FormulaWhat::Length,
    };
    put_formula_fault(&mut why, fault)?;
    let mut text = Vec::new(alloc);
    put_refused(&mut text, 20, &why)?;
    let mut out = SureSink::new(Vec::new(alloc), 0);
    write_refusal(alloc, &text, &mut out)?;
    assert_eq!(rt;
        str::from_utf8(out.bytes())?,
        "refused line 20 column 4097 Length\n"
    );
    let mut pieces = Pieces {
        lines: 0,
        others: 0,
    };
    write_refusal(alloc, &text, &mut pieces)?;
    assert_eq!(rt; (pieces.lines, pieces.others), (1, 0));
    Ok(())
}

#[test]
fn a_plan_refusal_numbers_states_as_a_file_does(rt: HostRuntime) -> Result<(), Fail> {
    let alloc = rt.alloc();
    for (refusal, wanted) in [
        (PlanError::ZeroReward(0), "ZeroReward state 1"),
        (
            PlanError::RewardRange(u32::MAX),
            "RewardRange state 4294967296",
        ),
        (PlanError::TooLong, "TooLong"),
        (PlanError::NoRewards, "NoRewards"),
    ] {
        let mut text = Vec::new(alloc);
        put_plan_refusal(&mut text, refusal)?;
        assert_eq!(rt; str::from_utf8(&text)?, wanted);
    }
    Ok(())
}
