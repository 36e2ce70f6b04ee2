// Untils from states that can't reach the goal, whose bracket is 0 alone.
use super::*;

// One state, which nothing leaves and nothing names.
const ALONE: &[u8] = b"STATES 1\nTRANSITIONS 0\n";

const NO_LABEL: &[u8] = b"#DECLARATION\n#END\n";

#[test]
fn an_empty_goal_is_reached_from_no_state(rt: HostRuntime) -> Result<(), Fail> {
    let input = Input::ctmc(ALONE, NO_LABEL, b"P{<=0}[tt U[0,5] ff]\n");
    let text =
        "formula P{<=0}[tt U[0,5] ff]\nhorizon 30\n1 satisfied 0.000000000000 0.000000000000\n";
    expect(&rt, input, Status::Done, text)?;
    expect(
        &rt,
        Input::ctmc(FOUR, TWO_LABELS, b"P{>0}[tt U[0,5] a&&b]\n"),
        Status::Done,
        "formula P{>0}[tt U[0,5] a && b]\nhorizon 60\n1 refuted 0.000000000000 0.000000000000\n2 refuted 0.000000000000 0.000000000000\n3 refuted 0.000000000000 0.000000000000\n4 refuted 0.000000000000 0.000000000000\n",
    )
}

#[test]
fn a_goal_of_all_states_is_sure(rt: HostRuntime) -> Result<(), Fail> {
    expect(
        &rt,
        Input::ctmc(FOUR, TWO_LABELS, b"P{>=1}[ff U[0,5] a||!a]\n"),
        Status::Done,
        "formula P{>=1}[ff U[0,5] a || !a]\nhorizon 60\n1 satisfied 1.000000000000 1.000000000000\n2 satisfied 1.000000000000 1.000000000000\n3 satisfied 1.000000000000 1.000000000000\n4 satisfied 1.000000000000 1.000000000000\n",
    )
}

// Six states in a row, and a way from the fourth back to the second; the label a is on the fifth, b on the third.
const ROW: &[u8] = b"STATES 6\nTRANSITIONS 6\n1 2 1\n2 3 1\n3 4 1\n4 5 1\n4 2 1\n5 6 1\n";

const ROW_LABELS: &[u8] = b"#DECLARATION\na b\n#END\n5 a\n3 b\n";

// Within no time only the goal is reached, and the other states tell by their upper number whether they can reach it at
// all: those that can have what may lie past the horizon.
const WALKS: &[(&[u8], [bool; 6])] = &[
    (
        b"P{>0.5}[tt U[0,0] a]",
        [true, true, true, true, true, false],
    ),
    (
        b"P{>0.5}[!b U[0,0] a]",
        [false, false, false, true, true, false],
    ),
    (
        b"P{>0.5}[!(a||b) U[0,0] b]",
        [true, true, true, true, false, false],
    ),
    (
        b"P{>0.5}[b U[0,0] a||b]",
        [false, false, true, false, true, false],
    ),
    (
        b"P{>0.5}[!a && tt U[0,0] a && !b]",
        [true, true, true, true, true, false],
    ),
];

#[test]
fn a_state_without_a_walk_to_the_goal_has_0_alone(rt: HostRuntime) -> Result<(), Fail> {
    for (formula, walks) in WALKS {
        let input = Input::ctmc(ROW, ROW_LABELS, formula);
        let (status, text) = serve_input(&rt, input, 0)?;
        assert_eq!(rt; status, Status::Done);
        let mut lines = text.as_slice().split(|byte| *byte == b'\n').skip(2);
        for leads in walks {
            let line = lines.next().unwrap_or(b"");
            assert_eq!(rt;
                !line.ends_with(b"0.000000000000 0.000000000000"),
                *leads,
                "at {formula:?}"
            );
        }
    }
    Ok(())
}

// 65,536 states in a line, which goes from the first to the last: all of them can reach the last, and only the first the
// first.
#[test]
fn a_long_line_is_gone_down_to_its_end(rt: HostRuntime) -> Result<(), Fail> {
    let alloc = rt.alloc();
    let mut tra = Vec::from_slice(alloc, b"STATES 65536\nTRANSITIONS 65535\n")?;
    for s in 1..65_536u32 {
        tra.extend_from_slice(format!(in alloc; "{} {} 1\n", s, s + 1)?.as_bytes())?;
    }
    let lab = b"#DECLARATION\nfirst last\n#END\n1 first\n65536 last\n";
    expect_front(
        &rt,
        Input::ctmc(&tra, lab, b"P{>0}[tt U[0,1] last]"),
        "formula P{>0}[tt U[0,1] last]\nhorizon 32\n1 undecided 0.000000000000 0.000000000932\n2 undecided 0.000000000000 0.000000000932\n",
    )?;
    expect_front(
        &rt,
        Input::ctmc(&tra, lab, b"P{>0}[tt U[0,1] first]"),
        "formula P{>0}[tt U[0,1] first]\nhorizon 32\n1 satisfied 1.000000000000 1.000000000000\n2 refuted 0.000000000000 0.000000000000\n3 refuted 0.000000000000 0.000000000000\n",
    )
}
