// Time-bounded untils: brackets, horizons and verdicts.
use super::*;
use ctmc_semantics::{PlainFraction, plain_until_average};
use decimal_text::write12;

// The exact average within the time 1 over three states with rates of at most 1, cut after the jumps.
fn exact_average(
    rates: &[u64; 9],
    goals: &[bool; 3],
    jumps: u32,
    state: usize,
) -> Option<PlainFraction> {
    let load = PlainFraction { num: 1, den: 1 };
    plain_until_average(rates, &[true; 3], goals, load, jumps, state.min(2))
}

// The fraction, which is at most 1, in units of 10^-12, rounded down.
fn floor_units(fraction: PlainFraction) -> u64 {
    let den = fraction.den.max(1);
    let mut units: u128 = 0;
    let mut rest = fraction.num;
    for _ in 0u32..13 {
        units = units.wrapping_mul(10).wrapping_add(rest / den);
        rest = (rest % den).wrapping_mul(10);
    }
    units.min(1_000_000_000_000) as u64
}

// The number lies between the two that end the line, in which each has 14 bytes.
fn lies_in(units: u64, line: &[u8]) -> bool {
    let number = write12(units.min(1_000_000_000_000));
    let Some((front, high)) = line.split_last_chunk::<14>() else {
        return false;
    };
    let Some((_, low)) = front
        .strip_suffix(b" ")
        .unwrap_or(front)
        .split_last_chunk::<14>()
    else {
        return false;
    };
    low.as_slice() <= number.as_slice() && number.as_slice() <= high.as_slice()
}

#[test]
fn an_until_is_answered_with_its_horizon(rt: HostRuntime) -> Result<(), Fail> {
    let cases: [(&[u8], &str); 4] = [
        (
            b"P{>=0.63}[tt U[0,1] a]",
            "formula P{>=0.63}[tt U[0,1] a]\nhorizon 32\n1 satisfied 0.632120558828 0.632120559760\n2 satisfied 1.000000000000 1.000000000000\n",
        ),
        (
            b"P{>=0.64}[tt U[0,1] a]\n",
            "formula P{>=0.64}[tt U[0,1] a]\nhorizon 32\n1 refuted 0.632120558828 0.632120559760\n2 satisfied 1.000000000000 1.000000000000\n",
        ),
        (
            b"P{>=0.6321205590}[tt U[0,1] a]\n",
            "formula P{>=0.632120559}[tt U[0,1] a]\nhorizon 32\n1 undecided 0.632120558828 0.632120559760\n2 satisfied 1.000000000000 1.000000000000\n",
        ),
        (
            b"P{<0.5}[tt U[0,0] a]\n",
            "formula P{<0.5}[tt U[0,0] a]\nhorizon 30\n1 satisfied 0.000000000000 0.000000000932\n2 refuted 1.000000000000 1.000000000000\n",
        ),
    ];
    for (formula, want) in cases {
        for cut in [0, 1] {
            let (status, text) = serve_input(&rt, Input::ctmc(STEP, LAB, formula), cut)?;
            assert_eq!(rt; status, Status::Done, "at {formula:?}");
            assert_eq!(rt; str::from_utf8(&text)?, want);
        }
    }
    Ok(())
}

// State 1's bracket is from 0.632120558828 to 0.632120559760.
#[test]
fn a_threshold_in_the_bracket_is_undecided(rt: HostRuntime) -> Result<(), Fail> {
    let cases = [
        ("0.632120558827", "refuted", "satisfied"),
        ("0.632120558829", "undecided", "undecided"),
        ("0.632120559", "undecided", "undecided"),
        ("0.632120559759", "undecided", "undecided"),
        ("0.632120559761", "satisfied", "refuted"),
    ];
    for (threshold, below, above) in cases {
        for (op, verdict) in [("<", below), ("<=", below), (">", above), (">=", above)] {
            let formula = format!(in rt.alloc(); "P{{{op}{threshold}}}[tt U[0,1] a]")?;
            let front = format!(in rt.alloc();
                "formula {formula}\nhorizon 32\n1 {verdict} 0.632120558828 0.632120559760\n"
            )?;
            expect_front(
                &rt,
                Input::ctmc(STEP, LAB, formula.as_bytes()),
                front.as_str(),
            )?;
        }
    }
    Ok(())
}

// The states on the way have to satisfy the left operand; the goal itself needn't. The third state, which is live for no
// formula but the second, is on one of the two ways.
const LIVE: &[(&[u8], &str)] = &[
    (
        b"P{>=0.65}[!b U[0,1] a]",
        "formula P{>=0.65}[!b U[0,1] a]\nhorizon 36\n1 refuted 0.633475287754 0.633475288687\n2 satisfied 1.000000000000 1.000000000000\n3 refuted 0.000000000000 0.000000000000\n4 refuted 0.000000000000 0.000000000000\n",
    ),
    (
        b"P{>=0.65}[tt U[0,1] a]",
        "formula P{>=0.65}[tt U[0,1] a]\nhorizon 36\n1 satisfied 0.791166745230 0.791166746162\n2 satisfied 1.000000000000 1.000000000000\n3 refuted 0.632120558828 0.632120559760\n4 refuted 0.000000000000 0.000000000000\n",
    ),
    (
        b"P{>=0.65}[!b&&!a U[0,1] a||b]",
        "formula P{>=0.65}[!b && !a U[0,1] a || b]\nhorizon 36\n1 satisfied 0.950212931632 0.950212932564\n2 satisfied 1.000000000000 1.000000000000\n3 satisfied 1.000000000000 1.000000000000\n4 refuted 0.000000000000 0.000000000000\n",
    ),
    (
        b"P{<1}[ff U[0,1] a]",
        "formula P{<1}[ff U[0,1] a]\nhorizon 36\n1 satisfied 0.000000000000 0.000000000000\n2 refuted 1.000000000000 1.000000000000\n3 satisfied 0.000000000000 0.000000000000\n4 satisfied 0.000000000000 0.000000000000\n",
    ),
];

#[test]
fn an_until_leads_over_live_states_alone(rt: HostRuntime) -> Result<(), Fail> {
    for (formula, text) in LIVE {
        let input = Input::ctmc(FOUR, TWO_LABELS, formula);
        expect(&rt, input, Status::Done, text)?;
    }
    Ok(())
}

// The goal has the probability 1, which is its own bound, and no state less than 0.
#[test]
fn the_ends_of_the_scale_are_decided(rt: HostRuntime) -> Result<(), Fail> {
    let cases = [
        (">=1", "satisfied", "refuted"),
        (">1", "refuted", "refuted"),
        ("<=1", "satisfied", "satisfied"),
        ("<1", "refuted", "satisfied"),
    ];
    for (bound, goal, other) in cases {
        let formula = format!(in rt.alloc(); "P{{{bound}}}[tt U[0,1] a]")?;
        let text = format!(in rt.alloc();
            "formula {formula}\nhorizon 32\n1 {other} 0.632120558828 0.632120559760\n2 {goal} 1.000000000000 1.000000000000\n"
        )?;
        let input = Input::ctmc(STEP, LAB, formula.as_bytes());
        expect(&rt, input, Status::Done, text.as_str())?;
    }
    expect(
        &rt,
        Input::ctmc(STILL, LAB, b"P{>=0}[tt U[0,9] a]"),
        Status::Done,
        "formula P{>=0}[tt U[0,9] a]\nhorizon 30\n1 satisfied 0.000000000000 0.000000000000\n2 satisfied 1.000000000000 1.000000000000\n",
    )
}

// Rates of 0.3 and 0.7 over ten times the time, or over a time with decimals of its own, have the load of 3 and 7.
#[test]
fn decimals_of_rates_and_time_are_counted(rt: HostRuntime) -> Result<(), Fail> {
    let tenths: &[u8] = b"STATES 3\nTRANSITIONS 2\n1 2 0.3\n1 3 0.7\n";
    let cases: [(&[u8], &str); 4] = [
        (TRA, "0.2"),
        (tenths, "2"),
        (b"STATES 3\nTRANSITIONS 2\n1 2 0.03\n1 3 0.07\n", "20"),
        (b"STATES 3\nTRANSITIONS 2\n1 2 30\n1 3 70\n", "0.02"),
    ];
    for (tra, time) in cases {
        let formula = format!(in rt.alloc(); "P{{>=0.5}}[tt U[0,{time}] a]")?;
        let text = format!(in rt.alloc();
            "formula {formula}\nhorizon 34\n1 refuted 0.259399415029 0.259399415961\n2 satisfied 1.000000000000 1.000000000000\n3 refuted 0.000000000000 0.000000000000\n"
        )?;
        let input = Input::ctmc(tra, LAB, formula.as_bytes());
        expect(&rt, input, Status::Done, text.as_str())?;
    }
    Ok(())
}

// A chain that goes from each state to the next with the rate 1, its goal at the end.
#[test]
fn a_far_goal_is_hardly_reached(rt: HostRuntime) -> Result<(), Fail> {
    let mut tra = Vec::from_slice(rt.alloc(), b"STATES 200\nTRANSITIONS 199\n")?;
    for s in 1..200u32 {
        let line = format!(in rt.alloc(); "{} {} 1\n", s, s + 1)?;
        tra.extend_from_slice(line.as_bytes())?;
    }
    let lab = b"#DECLARATION\na\n#END\n200 a\n";
    let input = Input::ctmc(&tra, lab, b"P{>=0.5}[tt U[0,50] a]");
    expect_front(
        &rt,
        input,
        "formula P{>=0.5}[tt U[0,50] a]\nhorizon 130\n1 refuted 0.000000000000 0.000000000932\n",
    )?;
    let (_, text) = serve_input(&rt, input, 0)?;
    assert!(rt;
        text.as_slice()
            .ends_with(b"200 satisfied 1.000000000000 1.000000000000\n")
    );
    Ok(())
}

// The average at the horizon, and past it, lies in each printed bracket: by the plain exact program, over chains whose
// rates are 0 and 1, so that its numbers fit.
#[test]
fn the_exact_averages_lie_in_the_brackets(rt: HostRuntime) -> Result<(), Fail> {
    let ring: &[u8] = b"STATES 3\nTRANSITIONS 3\n1 2 1\n2 3 1\n3 1 1\n";
    let pair: &[u8] = b"STATES 3\nTRANSITIONS 3\n1 1 1\n2 3 1\n3 2 1\n";
    let chains = [
        (ring, [0, 1, 0, 0, 0, 1, 1, 0, 0]),
        (pair, [1, 0, 0, 0, 0, 1, 0, 1, 0]),
    ];
    let labs: [&[u8]; 3] = [
        b"#DECLARATION\na\n#END\n1 a\n",
        b"#DECLARATION\na\n#END\n2 a\n",
        b"#DECLARATION\na\n#END\n3 a\n",
    ];
    for (tra, rates) in chains {
        for (goal, lab) in labs.iter().enumerate() {
            let goals = [goal == 0, goal == 1, goal == 2];
            let input = Input::ctmc(tra, lab, b"P{>=0.5}[tt U[0,1] a]");
            let (_, text) = serve_input(&rt, input, 0)?;
            let mut state: usize = 0;
            for line in text.as_slice().split(|byte| *byte == b'\n').skip(2).take(3) {
                for jumps in [32, 33] {
                    let average = exact_average(&rates, &goals, jumps, state);
                    match average {
                        None => assert!(rt; false, "the numbers fit"),
                        Some(average) => {
                            assert!(rt; lies_in(floor_units(average), line), "at {goal} {state}")
                        }
                    }
                }
                state = state.wrapping_add(1);
            }
            assert_eq!(rt; state, 3);
        }
    }
    Ok(())
}
