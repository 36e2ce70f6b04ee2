// Formulas inside formulas: what an inner operator leaves open stays open, unless it doesn't matter.
use super::limits::WIDE;
use super::unbounded::{RING, SLOW_FORK};
use super::workers::{LINE_LAB, line_tra};
use super::*;

// Inner operators that are decided at both states: the next is satisfied at the first one alone, and the until at the second
// one alone.
const DECIDED: &[(&[u8], &str)] = &[
    (
        b"P{>=0.5}[tt U[0,1] P{>=0.9}[X a]]",
        "formula P{>=0.5}[tt U[0,1] P{>=0.9}[X a]]\nhorizon 32\n1 satisfied 1.000000000000 1.000000000000\n2 refuted 0.000000000000 0.000000000000\n",
    ),
    (
        b"P{>=0.5}[X(P{>=0.64}[tt U[0,1] a])]",
        "formula P{>=0.5}[X P{>=0.64}[tt U[0,1] a]]\n1 satisfied 1.000000000000 1.000000000000\n2 refuted 0.000000000000 0.000000000000\n",
    ),
    (
        b"P{>=0.5}[(P{>=0.9}[X a]) U[0,~] P{>=0.64}[tt U[0,1] a]]",
        "formula P{>=0.5}[P{>=0.9}[X a] U P{>=0.64}[tt U[0,1] a]]\nhorizon 512\n1 satisfied 1.000000000000 1.000000000000\n2 satisfied 1.000000000000 1.000000000000\n",
    ),
];

#[test]
fn inner_operators_are_answered_first(rt: HostRuntime) -> Result<(), Fail> {
    for (line, text) in DECIDED {
        expect(&rt, Input::ctmc(STEP, LAB, line), Status::Done, text)?;
    }
    Ok(())
}

// The inner until is undecided at the first state: where it counts as satisfied one end is the greater, and where it counts as
// refuted the other one is the less.
const OPEN: &[(&[u8], &str)] = &[
    (
        b"P{>=0.5}[tt U[0,1] P{>=0.632120559}[tt U[0,1] a]]",
        "formula P{>=0.5}[tt U[0,1] P{>=0.632120559}[tt U[0,1] a]]\nhorizon 32\n1 satisfied 0.632120558828 1.000000000000\n2 satisfied 1.000000000000 1.000000000000\n",
    ),
    (
        b"P{>=0.7}[tt U[0,1] P{>=0.632120559}[tt U[0,1] a]]",
        "formula P{>=0.7}[tt U[0,1] P{>=0.632120559}[tt U[0,1] a]]\nhorizon 32\n1 undecided 0.632120558828 1.000000000000\n2 satisfied 1.000000000000 1.000000000000\n",
    ),
    (
        b"P{>=0.5}[P{>=0.632120559}[tt U[0,1] a] U[0,1] a]",
        "formula P{>=0.5}[P{>=0.632120559}[tt U[0,1] a] U[0,1] a]\nhorizon 32\n1 undecided 0.000000000000 0.632120559760\n2 satisfied 1.000000000000 1.000000000000\n",
    ),
    (
        b"P{<0.7}[P{>=0.632120559}[tt U[0,1] a] U[0,1] a]",
        "formula P{<0.7}[P{>=0.632120559}[tt U[0,1] a] U[0,1] a]\nhorizon 32\n1 satisfied 0.000000000000 0.632120559760\n2 refuted 1.000000000000 1.000000000000\n",
    ),
];

#[test]
fn what_an_inner_operator_leaves_open_widens_the_bracket(rt: HostRuntime) -> Result<(), Fail> {
    for (line, text) in OPEN {
        expect(&rt, Input::ctmc(STEP, LAB, line), Status::Done, text)?;
    }
    Ok(())
}

// With more bits the inner until is refuted at the first state, and the bracket is narrow.
#[test]
fn more_bits_decide_the_inner_operator(rt: HostRuntime) -> Result<(), Fail> {
    let input = Input {
        words: &["mrmc_any", "ctmc", "M.tra", "M.lab", "--bits=48"],
        ..Input::ctmc(
            STEP,
            LAB,
            b"P{>=0.5}[tt U[0,1] P{>=0.632120559}[tt U[0,1] a]]\n",
        )
    };
    expect(
        &rt,
        input,
        Status::Done,
        "formula P{>=0.5}[tt U[0,1] P{>=0.632120559}[tt U[0,1] a]]\nhorizon 50\n1 satisfied 0.632120558828 0.632120558829\n2 satisfied 1.000000000000 1.000000000000\n",
    )
}

// From the third state the first is next, at which the inner until is undecided.
const BEHIND: &[u8] = b"STATES 3\nTRANSITIONS 2\n1 2 1\n3 1 1\n";

const NEXT_OF_OPEN: &[(&[u8], &str)] = &[
    (
        b"P{>0}[X P{>=0.632120559}[tt U[0,1] a]]",
        "formula P{>0}[X P{>=0.632120559}[tt U[0,1] a]]\n1 satisfied 1.000000000000 1.000000000000\n2 refuted 0.000000000000 0.000000000000\n3 undecided 0.000000000000 1.000000000000\n",
    ),
    (
        b"P{<1}[X P{>=0.632120559}[tt U[0,1] a]]",
        "formula P{<1}[X P{>=0.632120559}[tt U[0,1] a]]\n1 refuted 1.000000000000 1.000000000000\n2 satisfied 0.000000000000 0.000000000000\n3 undecided 0.000000000000 1.000000000000\n",
    ),
    (
        b"P{<=1}[X P{>=0.632120559}[tt U[0,1] a]]",
        "formula P{<=1}[X P{>=0.632120559}[tt U[0,1] a]]\n1 satisfied 1.000000000000 1.000000000000\n2 satisfied 0.000000000000 0.000000000000\n3 satisfied 0.000000000000 1.000000000000\n",
    ),
];

#[test]
fn a_next_has_a_wide_bracket_where_its_operand_is_open(rt: HostRuntime) -> Result<(), Fail> {
    for (line, text) in NEXT_OF_OPEN {
        expect(&rt, Input::ctmc(BEHIND, LAB, line), Status::Done, text)?;
    }
    Ok(())
}

// After four jumps the inner until is undecided at the first and the fourth state.
#[test]
fn an_until_without_a_bound_may_have_an_open_goal(rt: HostRuntime) -> Result<(), Fail> {
    let input = Input {
        words: &["mrmc_any", "ctmc", "M.tra", "M.lab", "--jumps=4"],
        ..Input::ctmc(SLOW_FORK, LAB, b"P{>0.9}[tt U P{>=0.5}[tt U a]]\n")
    };
    expect(
        &rt,
        input,
        Status::Done,
        "formula P{>0.9}[tt U P{>=0.5}[tt U a]]\nhorizon 4\n1 undecided 0.468750000000 1.000000000000\n2 satisfied 1.000000000000 1.000000000000\n3 refuted 0.000000000000 0.000000000000\n4 undecided 0.437500000000 1.000000000000\n",
    )
}

// With 0.64 the until is refuted at the first state, and with 0.632120559 undecided; at the second state it is satisfied.
const TABLES: &[(&str, [&str; 2])] = &[
    ("!P{>=0.64}[tt U[0,1] a]", ["satisfied", "refuted"]),
    ("!P{>=0.632120559}[tt U[0,1] a]", ["undecided", "refuted"]),
    (
        "a && P{>=0.632120559}[tt U[0,1] a]",
        ["refuted", "satisfied"],
    ),
    (
        "P{>=0.632120559}[tt U[0,1] a] && a",
        ["refuted", "satisfied"],
    ),
    (
        "P{>=0.632120559}[tt U[0,1] a] && P{>0}[X a]",
        ["undecided", "refuted"],
    ),
    (
        "!a || P{>=0.632120559}[tt U[0,1] a]",
        ["satisfied", "satisfied"],
    ),
    (
        "P{>=0.632120559}[tt U[0,1] a] || P{>0}[X a]",
        ["satisfied", "satisfied"],
    ),
    (
        "P{>=0.632120559}[tt U[0,1] a] || a",
        ["undecided", "satisfied"],
    ),
    (
        "P{>=0.632120559}[tt U[0,1] a] && !P{>=0.632120559}[tt U[0,1] a]",
        ["undecided", "refuted"],
    ),
    (
        "P{>=0.632120559}[tt U[0,1] a] || !P{>=0.632120559}[tt U[0,1] a]",
        ["undecided", "satisfied"],
    ),
];

// There is neither a horizon nor a bracket, and nothing is watched.
#[test]
fn negations_and_chains_of_operators_have_verdicts_alone(rt: HostRuntime) -> Result<(), Fail> {
    for (formula, [first, second]) in TABLES {
        let text = format!(in rt.alloc(); "formula {formula}\n1 {first}\n2 {second}\n")?;
        let input = Input::ctmc(STEP, LAB, formula.as_bytes());
        expect(&rt, input, Status::Done, text.as_str())?;
        let watched = Input {
            words: &["mrmc_any", "ctmc", "M.tra", "M.lab", "--watch=3"],
            ..input
        };
        expect(&rt, watched, Status::Done, text.as_str())?;
    }
    Ok(())
}

// Of the second state, which surely is the goal, each bracket is the last.
#[test]
fn only_the_outer_until_is_watched(rt: HostRuntime) -> Result<(), Fail> {
    let input = Input {
        words: &[
            "mrmc_any", "ctmc", "M.tra", "M.lab", "--watch", "2", "--state", "2",
        ],
        ..Input::ctmc(
            STEP,
            LAB,
            b"P{>=0.5}[tt U[0,1] P{>=0.632120559}[tt U[0,1] a]]\nP{>0}[X P{>=0.64}[tt U[0,1] a]]\n",
        )
    };
    expect(
        &rt,
        input,
        Status::Done,
        "formula P{>=0.5}[tt U[0,1] P{>=0.632120559}[tt U[0,1] a]]\nhorizon 32\nwatch 1 1.000000000000 1.000000000000\nwatch 2 1.000000000000 1.000000000000\n1 satisfied 0.632120558828 1.000000000000\n2 satisfied 1.000000000000 1.000000000000\nformula P{>0}[X P{>=0.64}[tt U[0,1] a]]\n1 satisfied 1.000000000000 1.000000000000\n2 refuted 0.000000000000 0.000000000000\n",
    )
}

// Over 65,536 states an until within 49 is too large, and one within 9,000 too long: of two the first in order is told,
// operands before their operator and the left one before the right one, whether or not it matters for the verdicts.
const REFUSED: &[(&[u8], &str)] = &[
    (
        b"P{>=0.5}[tt U[0,49] P{>=0.5}[tt U[0,9e3] a]]",
        "refused line 1 TooLong\n",
    ),
    (
        b"P{>=0.5}[tt U[0,9e3] P{>=0.5}[tt U[0,49] a]]",
        "refused line 1 TooLarge\n",
    ),
    (
        b"P{>=0.5}[P{>=0.5}[tt U[0,9e3] a] U[0,49] a]",
        "refused line 1 TooLong\n",
    ),
    (
        b"P{>=0.5}[P{>0}[tt U[0,49] a] U[0,1] P{>0}[tt U[0,9e3] a]]",
        "refused line 1 TooLarge\n",
    ),
    (
        b"P{>=0.5}[P{>0}[tt U[0,9e3] a] U[0,1] P{>0}[tt U[0,49] a]]",
        "refused line 1 TooLong\n",
    ),
    (
        b"P{>0}[tt U[0,9e3] a] && P{>0}[tt U[0,49] a]",
        "refused line 1 TooLong\n",
    ),
    (
        b"P{>0}[tt U[0,49] a] || P{>0}[tt U[0,9e3] a]",
        "refused line 1 TooLarge\n",
    ),
    (
        b"P{>0}[X !P{>0}[tt U[0,9e3] a]]",
        "refused line 1 TooLong\n",
    ),
    (b"ff && P{>0}[tt U[0,49] a]", "refused line 1 TooLarge\n"),
    (b"tt || P{>0}[tt U[0,9e3] a]", "refused line 1 TooLong\n"),
];

#[test]
fn the_first_until_without_a_plan_refuses_the_formula(rt: HostRuntime) -> Result<(), Fail> {
    for (line, text) in REFUSED {
        expect(&rt, Input::ctmc(WIDE, LAB, line), Status::Refused, text)?;
    }
    Ok(())
}

// The outer until alone would be answered.
#[test]
fn an_inner_until_may_be_too_long(rt: HostRuntime) -> Result<(), Fail> {
    let tra = line_tra(rt.alloc())?;
    expect(
        &rt,
        Input::ctmc(
            &tra,
            LINE_LAB,
            b"P{>=0.5}[tt U[0,50] P{>=0.5}[tt U[0,8178] a]]\n",
        ),
        Status::Refused,
        "refused line 1 TooLong\n",
    )
}

// 341 times the operator, in 4,090 bytes; with one more the line would be too long.
#[test]
fn the_longest_chain_of_operators_is_answered(rt: HostRuntime) -> Result<(), Fail> {
    let alloc = rt.alloc();
    for (sign, spaced) in [("&&", " && "), ("||", " || ")] {
        let mut line = String::from_str(alloc, "P{>0}[X a]")?;
        let mut text = String::from_str(alloc, "formula P{>0}[X a]")?;
        for _ in 1u32..341 {
            line.push_str(sign)?;
            line.push_str("P{>0}[X a]")?;
            text.push_str(spaced)?;
            text.push_str("P{>0}[X a]")?;
        }
        assert_eq!(rt; line.len(), 4_090);
        text.push_str("\n1 satisfied\n2 refuted\n")?;
        let input = Input::ctmc(STEP, LAB, line.as_bytes());
        expect(&rt, input, Status::Done, text.as_str())?;
    }
    Ok(())
}

// So many times `P{>0}[X`, one inside the other, round the label.
fn nexts(alloc: Global, count: u32) -> Result<String, AllocError> {
    let mut line = String::new(alloc);
    for _ in 0..count {
        line.push_str("P{>0}[X ")?;
    }
    line.push_str("a")?;
    for _ in 0..count {
        line.push_str("]")?;
    }
    Ok(line)
}

// On the ring the label is 64 steps ahead of the first state alone.
#[test]
fn operators_may_stand_64_deep(rt: HostRuntime) -> Result<(), Fail> {
    let line = nexts(rt.alloc(), 64)?;
    let text = format!(in rt.alloc();
        "formula {line}\n1 satisfied 1.000000000000 1.000000000000\n2 refuted 0.000000000000 0.000000000000\n3 refuted 0.000000000000 0.000000000000\n"
    )?;
    expect(
        &rt,
        Input::ctmc(RING, LAB, line.as_bytes()),
        Status::Done,
        text.as_str(),
    )?;
    let line = nexts(rt.alloc(), 65)?;
    expect(
        &rt,
        Input::ctmc(RING, LAB, line.as_bytes()),
        Status::Refused,
        "refused line 1 column 513 Depth\n",
    )
}
