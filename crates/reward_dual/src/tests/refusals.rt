// Why there is no plan, each time while what is tried later would refuse too.

ghost use Rattle.std.specs.Prelude.{◌≤◌, All};

use super::*;
use std::process::Abort;

// 10^18 - 1.
const GREATEST: Decimal = Decimal {
    c: 999_999_999_999_999_999,
    x: 0,
};

// Within this reward there is no plan over the chain with these rewards of 17 decimals, and this is why.
fn expect_refused(
    rt: &impl Abort,
    alloc: Global,
    rewards: [u64; 3],
    reward: Decimal,
    why: PlanError,
) -> Result<(), Fail>
    requires { All (λ reward. reward ≤ 9223372036854775807) rewards }
{
    let model = earning(alloc, there_and_back(alloc, 2000, 1, 0)?, 17, rewards)?;
    assert_eq!(rt; plan_within(alloc, &model, reward).err(), Some(why));
    Ok(())
}

#[test]
fn without_rewards_there_is_none(rt: HostRuntime) -> Result<(), Fail> {
    let alloc = rt.alloc();
    let lab = Lab::new(Vec::new(alloc), vec![in alloc; 0, 0, 0]?);
    let model = Model::build(alloc, there_and_back(alloc, 2000, 1, 0)?, lab, None)?;
    let why = plan_within(alloc, &model, GREATEST).err();
    assert_eq!(rt; why, Some(PlanError::NoRewards));
    Ok(())
}

// 2000 times 2^62 passes 63 bits, and 2000 * (10^18 - 1) * 10^17 passes 127.
#[test]
fn refusals_come_in_their_order(rt: HostRuntime) -> Result<(), Fail> {
    let alloc = rt.alloc();
    let much = 1 << 62;
    expect_refused(&rt, alloc, [1, 0, 0], GREATEST, PlanError::ZeroReward(1))?;
    expect_refused(&rt, alloc, [much, 1, 0], GREATEST, PlanError::ZeroReward(2))?;
    expect_refused(
        &rt,
        alloc,
        [1, much, much],
        GREATEST,
        PlanError::RewardRange(1),
    )?;
    expect_refused(
        &rt,
        alloc,
        [1, 1, much],
        GREATEST,
        PlanError::RewardRange(2),
    )?;
    expect_refused(&rt, alloc, [1, 1, 1], GREATEST, PlanError::BoundRange)?;
    let long = Decimal { c: 1, x: 0 };
    expect_refused(&rt, alloc, [1, 1, 1], long, PlanError::TooLong)
}

// 4,611,686,018,427,387 * 2000 is the last product below 2^63.
#[test]
fn the_greatest_divisor_of_a_row(rt: HostRuntime) -> Result<(), Fail> {
    let alloc = rt.alloc();
    let greatest = 4_611_686_018_427_387;
    let model = earning(
        alloc,
        there_and_back(alloc, 2000, 1, 0)?,
        17,
        [1, 1, greatest],
    )?;
    let none = Decimal { c: 0, x: 0 };
    let plan = match plan_within(alloc, &model, none) {
        Ok(plan) => plan,
        Err(_) => return Err(Fail::from("no plan")),
    };
    assert_eq!(rt; plan.layers, 8);
    let divisors = plan.frame.rows.iter().map(|row| row.den);
    assert_eq!(rt; divisors.last(), Some(9_223_372_036_854_774_000));
    let past = [1, 1, greatest + 1];
    expect_refused(&rt, alloc, past, none, PlanError::RewardRange(2))
}
