// Untils without a bound: brackets, jumps and verdicts.
use super::watching::nested_lines;
use super::*;

// From state 1 the second and the third are next with the rate 1 each.
const FORK: &[u8] = b"STATES 3\nTRANSITIONS 2\n1 2 1\n1 3 1\n";

// The same, and a state that goes to the first one at the greatest rate, so that the first stays with 1/2.
pub(super) const SLOW_FORK: &[u8] = b"STATES 4\nTRANSITIONS 3\n1 2 1\n1 3 1\n4 1 4\n";

pub(super) const RING: &[u8] = b"STATES 3\nTRANSITIONS 3\n1 2 1\n2 3 1\n3 1 1\n";

// Asserts the text over the chain, with these words.
fn expect_over(
    rt: &(impl Threads + Sync + AllocGlobal + Abort),
    words: &[&str],
    tra: &[u8],
    formulas: &[u8],
    text: &str,
) -> Result<(), Fail> {
    let input = Input {
        words,
        ..Input::ctmc(tra, TWO_LABELS, formulas)
    };
    expect(rt, input, Status::Done, text)
}

// Where the chain is decided after few jumps the bracket is a number; both spellings are one formula.
#[test]
fn what_is_reached_within_the_jumps_is_known(rt: HostRuntime) -> Result<(), Fail> {
    let states =
        "1 satisfied 0.500000000000 0.500000000000\n2 satisfied 1.000000000000 1.000000000000\n3 refuted 0.000000000000 0.000000000000\n";
    let text = format!(in rt.alloc(); "formula P{{>=0.5}}[tt U a]\nhorizon 512\n{states}")?;
    expect_over(&rt, CTMC, FORK, b"P{>=0.5}[tt U a]\n", text.as_str())?;
    expect_over(&rt, CTMC, FORK, b"P{>=0.5}[tt U[0,~] a]\n", text.as_str())?;
    expect_over(
        &rt,
        CTMC,
        FORK,
        b"P{>0.5}[tt U a]",
        "formula P{>0.5}[tt U a]\nhorizon 512\n1 refuted 0.500000000000 0.500000000000\n2 satisfied 1.000000000000 1.000000000000\n3 refuted 0.000000000000 0.000000000000\n",
    )
}

// The first state has 1/4 of reaching the goal and 1/2 of staying at each jump: after k jumps its bracket is from
// 1/2 - 2^-(k+1) to 1/2 + 2^-(k+1), and after many as near to 1/2 as words of 2^-62 are. The last state is a jump behind.
const BY_JUMPS: &[(&[&str], &str)] = &[
    (
        &["mrmc_any", "ctmc", "M.tra", "M.lab", "--jumps", "1"],
        "horizon 1\n1 undecided 0.250000000000 0.750000000000\n2 satisfied 1.000000000000 1.000000000000\n3 refuted 0.000000000000 0.000000000000\n4 undecided 0.000000000000 1.000000000000\n",
    ),
    (
        &["mrmc_any", "ctmc", "M.tra", "M.lab", "--jumps=4"],
        "horizon 4\n1 undecided 0.468750000000 0.531250000000\n2 satisfied 1.000000000000 1.000000000000\n3 refuted 0.000000000000 0.000000000000\n4 undecided 0.437500000000 0.562500000000\n",
    ),
    (
        &["mrmc_any", "ctmc", "M.tra", "M.lab"],
        "horizon 512\n1 undecided 0.499999999999 0.500000000001\n2 satisfied 1.000000000000 1.000000000000\n3 refuted 0.000000000000 0.000000000000\n4 undecided 0.499999999999 0.500000000001\n",
    ),
    (
        &["mrmc_any", "ctmc", "M.tra", "M.lab", "--jumps=16384"],
        "horizon 16384\n1 undecided 0.499999999999 0.500000000001\n2 satisfied 1.000000000000 1.000000000000\n3 refuted 0.000000000000 0.000000000000\n4 undecided 0.499999999999 0.500000000001\n",
    ),
];

#[test]
fn more_jumps_narrow_the_bracket(rt: HostRuntime) -> Result<(), Fail> {
    for (words, rest) in BY_JUMPS {
        let text = format!(in rt.alloc(); "formula P{{>=0.5}}[tt U a]\n{rest}")?;
        expect_over(&rt, words, SLOW_FORK, b"P{>=0.5}[tt U a]\n", text.as_str())?;
    }
    Ok(())
}

// Rates of many decimals, of which one is 0.
#[test]
fn a_slow_way_back_is_left_at_last(rt: HostRuntime) -> Result<(), Fail> {
    let input = Input::ctmc(
        b"STATES 3\nTRANSITIONS 4\n2 1 1e-05\n1 2 0.333333333333\n2 3 2.5\n1 3 0.000000\n",
        b"#DECLARATION\nup down\n#END\n1 up\n3 down\n",
        b"P{>=0.99}[tt U down]\n",
    );
    expect(
        &rt,
        input,
        Status::Done,
        "formula P{>=0.99}[tt U down]\nhorizon 512\n1 satisfied 0.999999999999 1.000000000000\n2 satisfied 0.999999999999 1.000000000000\n3 satisfied 1.000000000000 1.000000000000\n",
    )
}

// On a ring each state is reached, unless the way there isn't live; what no state has never is.
#[test]
fn a_ring_reaches_all_or_nothing(rt: HostRuntime) -> Result<(), Fail> {
    expect_over(
        &rt,
        CTMC,
        RING,
        b"P{>=1}[tt U a]\nP{>0}[a U b]\nP{<=0}[tt U a && b]\n",
        "formula P{>=1}[tt U a]\nhorizon 512\n1 satisfied 1.000000000000 1.000000000000\n2 satisfied 1.000000000000 1.000000000000\n3 satisfied 1.000000000000 1.000000000000\nformula P{>0}[a U b]\nhorizon 512\n1 refuted 0.000000000000 0.000000000000\n2 satisfied 1.000000000000 1.000000000000\n3 satisfied 1.000000000000 1.000000000000\nformula P{<=0}[tt U a && b]\nhorizon 512\n1 satisfied 0.000000000000 0.000000000000\n2 satisfied 0.000000000000 0.000000000000\n3 satisfied 0.000000000000 0.000000000000\n",
    )
}

const WATCHED: &[&str] = &[
    "mrmc_any",
    "ctmc",
    "M.tra",
    "M.lab",
    "--jumps=4",
    "--watch=3",
];

const WATCHED_END: &str =
    "\nwatch 3 0.468750000000 0.531250000000\n1 undecided 0.468750000000 0.531250000000\n2 satisfied 1.000000000000 1.000000000000\n3 refuted 0.000000000000 0.000000000000\n4 undecided 0.437500000000 0.562500000000\n";

#[test]
fn an_until_without_a_bound_is_watched(rt: HostRuntime) -> Result<(), Fail> {
    let input = Input {
        words: WATCHED,
        ..Input::ctmc(SLOW_FORK, TWO_LABELS, b"P{>=0.5}[tt U a]\n")
    };
    let (status, bytes) = serve_input(&rt, input, 0)?;
    let text = str::from_utf8(&bytes)?;
    assert_eq!(rt; status, Status::Done);
    assert!(rt;
        text.starts_with("formula P{>=0.5}[tt U a]\nhorizon 4\nwatch 1 "),
        "{text:?}"
    );
    assert!(rt; text.ends_with(WATCHED_END), "{text:?}");
    assert_eq!(rt; nested_lines(text), Some(3));
    Ok(())
}

// Tables of 512 states have 2^23 words over 16,383 jumps, and more over one jump more.
#[test]
fn a_table_may_be_too_large(rt: HostRuntime) -> Result<(), Fail> {
    let formulas = b"P{>0}[tt U a && b]\n";
    let within = Input {
        words: &[
            "mrmc_any",
            "ctmc",
            "M.tra",
            "M.lab",
            "--workers=1",
            "--jumps=16383",
        ],
        ..Input::ctmc(b"STATES 512\nTRANSITIONS 0\n", TWO_LABELS, formulas)
    };
    expect_front(
        &rt,
        within,
        "formula P{>0}[tt U a && b]\nhorizon 16383\n1 refuted 0.000000000000 0.000000000000\n",
    )?;
    let past = Input {
        words: &["mrmc_any", "ctmc", "M.tra", "M.lab", "--jumps=16384"],
        ..within
    };
    expect(&rt, past, Status::Refused, "refused line 1 TooLarge\n")
}
