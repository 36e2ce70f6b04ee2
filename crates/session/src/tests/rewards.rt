// Untils with a bound on the reward: brackets, verdicts and refusals.
use super::watching::nested_lines;
use super::*;

// Formulas over a chain with rewards.
fn with_rewards<'a>(tra: &'a [u8], lab: &'a [u8], rew: &'a [u8], formulas: &'a [u8]) -> Input<'a> {
    Input {
        words: CMRM,
        rew,
        ..Input::ctmc(tra, lab, formulas)
    }
}

// The first state earns 2 for each unit of time and is left with the rate 1: before a reward of 2 that has happened with
// 1 - 1/e, as within the time 1.
#[test]
fn the_reward_is_the_clock(rt: HostRuntime) -> Result<(), Fail> {
    expect(
        &rt,
        with_rewards(STEP, LAB, b"1 2\n2 2\n", b"P{>=0.63}[tt U[0,~][0,2] a]\n"),
        Status::Done,
        "formula P{>=0.63}[tt U[0,~][0,2] a]\nhorizon 32\n1 satisfied 0.632120558828 0.632120559760\n2 satisfied 1.000000000000 1.000000000000\n",
    )
}

// The answer over the four states within 3/2, where each earns 1.
const ALIKE: &str =
    "horizon 39\n1 satisfied 0.882880421656 0.882880422588\n2 satisfied 1.000000000000 1.000000000000\n3 satisfied 0.776869839851 0.776869840783\n4 refuted 0.000000000000 0.000000000000\n";

// A clock that goes as fast as time gives what a bound on the time gives; one ten times as fast, the same within ten times
// as much.
#[test]
fn where_all_earn_alike_it_is_the_time(rt: HostRuntime) -> Result<(), Fail> {
    let cases: [(&[u8], &str); 4] = [
        (b"1 1\n2 1\n3 1\n4 1\n", "U[0,1.5]"),
        (b"1 1\n2 1\n3 1\n4 1\n", "U[0,~][0,1.5]"),
        (b"1 10\n2 10\n3 10\n4 10\n", "U[0,~][0,15]"),
        (b"1 0.01\n2 1e-2\n3 0.010\n4 0.01\n", "U[0,~][0,0.015]"),
    ];
    for (rew, bound) in cases {
        let formula = format!(in rt.alloc(); "P{{>=0.5}}[tt {bound} a]")?;
        let text = format!(in rt.alloc(); "formula {formula}\n{ALIKE}")?;
        let input = with_rewards(FOUR, TWO_LABELS, rew, formula.as_bytes());
        expect(&rt, input, Status::Done, text.as_str())?;
    }
    Ok(())
}

// The first state's rates 2 and 1 for a reward of 4 a unit of time: before 3 the goal is entered straight with
// 2/3 (1 - e^(-9/4)). For one of 1/2 it is left with 6 for each unit of reward, the third with 1: before 3/2 the goal is
// entered with 2/3 (1 - e^-9) + 1/3 (1 - (6 e^(-3/2) - e^-9) / 5).
#[test]
fn who_earns_more_has_less_time(rt: HostRuntime) -> Result<(), Fail> {
    expect(
        &rt,
        with_rewards(
            FOUR,
            TWO_LABELS,
            b"1 4\n2 1\n3 2\n4 1\n",
            b"P{>=0.5}[!b U[0,~][0,3] a]\n",
        ),
        Status::Done,
        "formula P{>=0.5}[!b U[0,~][0,3] a]\nhorizon 36\n1 satisfied 0.596400516958 0.596400517891\n2 satisfied 1.000000000000 1.000000000000\n3 refuted 0.000000000000 0.000000000000\n4 refuted 0.000000000000 0.000000000000\n",
    )?;
    expect(
        &rt,
        with_rewards(
            FOUR,
            TWO_LABELS,
            b"1 0.50\n2 2.0\n3 1\n4 1e0\n",
            b"P{>=0.5}[tt U[0,~][0,1.5] a]\n",
        ),
        Status::Done,
        "formula P{>=0.5}[tt U[0,~][0,1.5] a]\nhorizon 48\n1 satisfied 0.910673890058 0.910673890990\n2 satisfied 1.000000000000 1.000000000000\n3 satisfied 0.776869839851 0.776869840783\n4 refuted 0.000000000000 0.000000000000\n",
    )
}

// No reward is gathered before 0, and where nothing is left no bound is too great.
#[test]
fn the_ends_of_bounds(rt: HostRuntime) -> Result<(), Fail> {
    expect(
        &rt,
        with_rewards(STEP, LAB, b"1 2\n2 2\n", b"P{>=0.5}[tt U[0,~][0,0.0] a]\n"),
        Status::Done,
        "formula P{>=0.5}[tt U[0,~][0,0] a]\nhorizon 30\n1 refuted 0.000000000000 0.000000000932\n2 satisfied 1.000000000000 1.000000000000\n",
    )?;
    expect(
        &rt,
        with_rewards(
            STILL,
            LAB,
            b"1 92\n2 1.00000000000000001\n",
            b"P{>=0.5}[tt U[0,~][0,999999999999999999] a]\n",
        ),
        Status::Done,
        "formula P{>=0.5}[tt U[0,~][0,999999999999999999] a]\nhorizon 30\n1 refuted 0.000000000000 0.000000000000\n2 satisfied 1.000000000000 1.000000000000\n",
    )
}

// Operators in one with a bound on the reward, and the other way round.
#[test]
fn operators_stand_in_one_another(rt: HostRuntime) -> Result<(), Fail> {
    expect(
        &rt,
        with_rewards(
            FOUR,
            TWO_LABELS,
            b"1 4\n2 1\n3 1\n4 2\n",
            b"P{>=0.5}[tt U[0,~][0,3] P{>=0.5}[X a]]\nP{>=0.7}[P{<0.5}[tt U[0,~][0,3] b] U[0,1] a]\n!P{>=0.6}[!b U[0,~][0,3] a] && P{>0.1}[tt U[0,~][0,3] b]\n",
        ),
        Status::Done,
        "formula P{>=0.5}[tt U[0,~][0,3] P{>=0.5}[X a]]\nhorizon 36\n1 satisfied 1.000000000000 1.000000000000\n2 refuted 0.000000000000 0.000000000000\n3 satisfied 1.000000000000 1.000000000000\n4 refuted 0.000000000000 0.000000000000\nformula P{>=0.7}[P{<0.5}[tt U[0,~][0,3] b] U[0,1] a]\nhorizon 36\n1 refuted 0.633475287754 0.633475288687\n2 satisfied 1.000000000000 1.000000000000\n3 refuted 0.000000000000 0.000000000000\n4 refuted 0.000000000000 0.000000000000\nformula !P{>=0.6}[!b U[0,~][0,3] a] && P{>0.1}[tt U[0,~][0,3] b]\n1 satisfied\n2 refuted\n3 satisfied\n4 refuted\n",
    )
}

const WATCHED: &[&str] = &[
    "mrmc_any",
    "cmrm",
    "M.tra",
    "M.lab",
    "M.rew",
    "--bits=12",
    "--watch=3",
    "--workers=2",
];

const WATCHED_END: &str =
    "\nwatch 3 0.596400516919 0.596644657545\n1 satisfied 0.596400516919 0.596644657545\n2 satisfied 1.000000000000 1.000000000000\n3 refuted 0.000000000000 0.000000000000\n4 refuted 0.000000000000 0.000000000000\n";

#[test]
fn it_is_watched(rt: HostRuntime) -> Result<(), Fail> {
    let input = Input {
        words: WATCHED,
        ..with_rewards(
            FOUR,
            TWO_LABELS,
            b"1 4\n2 1\n3 1\n4 2\n",
            b"P{>=0.5}[!b U[0,~][0,3] a]\n",
        )
    };
    let (status, bytes) = serve_input(&rt, input, 0)?;
    let text = str::from_utf8(&bytes)?;
    assert_eq!(rt; status, Status::Done);
    assert!(rt;
        text.starts_with("formula P{>=0.5}[!b U[0,~][0,3] a]\nhorizon 18\nwatch 1 "),
        "{text:?}"
    );
    assert!(rt; text.ends_with(WATCHED_END), "{text:?}");
    assert_eq!(rt; nested_lines(text), Some(3));
    Ok(())
}

// Left with 2000 and 1.
const QUICK: &[u8] = b"STATES 3\nTRANSITIONS 2\n1 2 2000\n2 1 1\n";

// Each refusal while all later ones have their cause too: a state without a line earns nothing; a reward of 10^17 units,
// 2000 times, passes 63 bits; 2000 * (10^18 - 1) * 10^17 passes 127; and 20,000 jumps pass 16,384.
#[test]
fn refusals_come_in_their_order(rt: HostRuntime) -> Result<(), Fail> {
    let long: &[u8] = b"P{>=0.5}[tt U[0,~][0,999999999999999999] a]\n";
    let no_rewards = Input::ctmc(QUICK, LAB, long);
    expect(
        &rt,
        no_rewards,
        Status::Refused,
        "refused line 1 NoRewards\n",
    )?;
    let cases: [(&[u8], &[u8], &str); 5] = [
        (b"1 1e-17\n3 1\n", long, "ZeroReward state 2"),
        (b"1 1e-17\n2 1e-17\n3 1\n", long, "RewardRange state 3"),
        (b"1 1e-17\n2 1e-17\n3 1e-17\n", long, "BoundRange"),
        (
            b"1 1\n2 1\n3 1\n",
            b"P{>=0.5}[tt U[0,~][0,10] a]\n",
            "TooLong",
        ),
        (
            b"1 1\n2 1\n3 1\n",
            b"P{>=0.5}[tt U[0,~][0,4] P{>0}[tt U[0,~][0,4.1] a]]\n",
            "TooLong",
        ),
    ];
    for (rew, formula, why) in cases {
        let text = format!(in rt.alloc(); "refused line 1 {why}\n")?;
        let input = with_rewards(QUICK, LAB, rew, formula);
        expect(&rt, input, Status::Refused, text.as_str())?;
    }
    Ok(())
}

// A refused line leaves the others as they are; of two untils the inner one is refused first.
#[test]
fn a_refusal_is_of_its_line(rt: HostRuntime) -> Result<(), Fail> {
    expect(
        &rt,
        with_rewards(STEP, LAB, b"2 2\n", b"P{>=0.5}[tt U[0,~][0,2] a]\na\n"),
        Status::Refused,
        "refused line 1 ZeroReward state 1\nformula a\n1 refuted\n2 satisfied\n",
    )?;
    expect(
        &rt,
        Input::ctmc(
            STEP,
            LAB,
            b"P{>=0.5}[tt U[0,~][0,2] P{>=0.5}[tt U[0,8178] a]]\n",
        ),
        Status::Refused,
        "refused line 1 TooLong\n",
    )
}

// The first two states are left equally fast for each unit of reward, with 2 or 1; the third earns 50 * 10^17 units, which
// fit 63 bits once and not twice.
#[test]
fn the_first_of_equals_decides(rt: HostRuntime) -> Result<(), Fail> {
    let formula: &[u8] = b"P{>=0.5}[tt U[0,~][0,2] a]\n";
    expect(
        &rt,
        with_rewards(
            b"STATES 4\nTRANSITIONS 2\n1 2 2\n2 1 1\n",
            LAB,
            b"1 4\n2 2\n3 50\n4 1e-17\n",
            formula,
        ),
        Status::Refused,
        "refused line 1 RewardRange state 3\n",
    )?;
    expect(
        &rt,
        with_rewards(
            b"STATES 4\nTRANSITIONS 2\n1 2 1\n2 1 2\n",
            LAB,
            b"1 2\n2 4\n3 50\n4 1e-17\n",
            formula,
        ),
        Status::Done,
        "formula P{>=0.5}[tt U[0,~][0,2] a]\nhorizon 32\n1 satisfied 0.632120558828 0.632120559760\n2 satisfied 1.000000000000 1.000000000000\n3 refuted 0.000000000000 0.000000000000\n4 refuted 0.000000000000 0.000000000000\n",
    )
}

// 10^-18 times 10^-18 over a reward of 85 has a divisor below 2^126; over 86 it has not.
#[test]
fn the_least_load_that_fits(rt: HostRuntime) -> Result<(), Fail> {
    let tra: &[u8] = b"STATES 2\nTRANSITIONS 1\n1 2 0.000000000000000001\n";
    let formula: &[u8] = b"P{>=0.5}[tt U[0,~][0,0.000000000000000001] a]\n";
    expect(
        &rt,
        with_rewards(tra, LAB, b"1 85\n2 85\n", formula),
        Status::Done,
        "formula P{>=0.5}[tt U[0,~][0,0.000000000000000001] a]\nhorizon 31\n1 refuted 0.000000000000 0.000000000932\n2 satisfied 1.000000000000 1.000000000000\n",
    )?;
    expect(
        &rt,
        with_rewards(tra, LAB, b"1 86\n2 86\n", formula),
        Status::Refused,
        "refused line 1 BoundRange\n",
    )
}
