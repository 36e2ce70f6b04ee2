// Rows, divisors and layers of plans.
use super::*;
use round_out::{Entry, ONE};
use step_core::Mix;

// Whether the rows have these divisors and entries.
fn has_rows(plan: &Plan, rows: &[(u64, &[Entry])]) -> bool {
    plan.frame.rows.len() == rows.len()
        && plan.frame.rows.iter().zip(rows).all(|(row, expected)| row.den == expected.0
            && row.entries.as_slice() == expected.1)
}

// The first is left with 6 for a reward of 4, the second with 5 for one of 2, so the second decides: rows over 5 times the
// reward, rates twice. The third stays. The load is 5 * 3 / 2.
#[test]
fn each_row_has_a_divisor_of_its_own(rt: HostRuntime) -> Result<(), Fail> {
    let alloc = rt.alloc();
    let model = earning(alloc, there_and_back(alloc, 6, 5, 0)?, 0, [4, 2, 7])?;
    let plan = match plan_within(alloc, &model, Decimal { c: 3, x: 0 }) {
        Ok(plan) => plan,
        Err(_) => return Err(Fail::from("no plan")),
    };
    let rows: [(u64, &[Entry]); 3] = [
        (20, &[Entry { to: 0, num: 8 }, Entry { to: 1, num: 12 }]),
        (10, &[Entry { to: 0, num: 10 }]),
        (35, &[Entry { to: 2, num: 35 }]),
    ];
    assert!(rt; has_rows(&plan, &rows));
    // Twice the load, and the bits.
    assert_eq!(rt; plan.layers, 23);
    assert_eq!(rt; plan.start_upper.as_slice(), [0, ONE, 0].as_slice());
    assert_eq!(rt; plan.reach.as_slice(), [true, true, false].as_slice());
    match &plan.mix {
        Mix::Poisson(weights, bits) => {
            assert_eq!(rt; *bits, 8);
            assert_eq!(rt; weights.high.len(), 24);
        }
        Mix::Last => assert!(rt; false, "a bound on the reward has weights"),
    }
    Ok(())
}

// Rates in tenths and rewards in hundredths: 0.6 for 0.04, so that 0.1 is a load of 3/2.
#[test]
fn decimals_of_rates_rewards_and_bound_count(rt: HostRuntime) -> Result<(), Fail> {
    let alloc = rt.alloc();
    let model = earning(alloc, there_and_back(alloc, 6, 1, 1)?, 2, [4, 4, 4])?;
    let plan = match plan_within(alloc, &model, Decimal { c: 1, x: 1 }) {
        Ok(plan) => plan,
        Err(_) => return Err(Fail::from("no plan")),
    };
    assert_eq!(rt; plan.layers, 11);
    Ok(())
}

// Where two states are left equally fast for each unit of reward, the first gives the divisors.
#[test]
fn the_first_of_equals_decides(rt: HostRuntime) -> Result<(), Fail> {
    let alloc = rt.alloc();
    let model = earning(alloc, there_and_back(alloc, 6, 3, 0)?, 0, [4, 2, 1])?;
    let plan = match plan_within(alloc, &model, Decimal { c: 1, x: 0 }) {
        Ok(plan) => plan,
        Err(_) => return Err(Fail::from("no plan")),
    };
    let rows: [(u64, &[Entry]); 3] = [
        (24, &[Entry { to: 1, num: 24 }]),
        (12, &[Entry { to: 0, num: 12 }]),
        (6, &[Entry { to: 2, num: 6 }]),
    ];
    assert!(rt; has_rows(&plan, &rows));
    assert_eq!(rt; plan.layers, 11);
    Ok(())
}

// Nothing leaves a state: each stays, with the divisor 1, and no bound or reward is too great.
#[test]
fn a_chain_at_rest_has_a_plan(rt: HostRuntime) -> Result<(), Fail> {
    let alloc = rt.alloc();
    let tra = Tra::new(3, 18, Vec::new(alloc));
    let greatest = 9_223_372_036_854_775_807;
    let model = earning(alloc, tra, 0, [greatest, 1, greatest])?;
    let bound = Decimal {
        c: 999_999_999_999_999_999,
        x: 0,
    };
    let plan = match plan_within(alloc, &model, bound) {
        Ok(plan) => plan,
        Err(_) => return Err(Fail::from("no plan")),
    };
    let rows: [(u64, &[Entry]); 3] = [
        (1, &[Entry { to: 0, num: 1 }]),
        (1, &[Entry { to: 1, num: 1 }]),
        (1, &[Entry { to: 2, num: 1 }]),
    ];
    assert!(rt; has_rows(&plan, &rows));
    assert_eq!(rt; plan.layers, 8);
    Ok(())
}
