// The load's fraction, in lowest terms.
use super::*;
use crate::lowest_terms::lowest_load;
use poisson_tail::Load;
use std::process::Abort;

// The load has these numbers, written as "num / den"; None where there is no load.
fn check_load(
    rt: &impl Abort,
    alloc: Global,
    load: Option<Load>,
    expected: Option<(u128, u128)>,
) -> Result<(), Fail> {
    let text = match expected {
        Some((num, den)) => format!(in alloc; "Some(Load {{ num: {num}, den: {den} }})")?,
        None => format!(in alloc; "None")?,
    };
    assert_eq!(rt; format!(in alloc; "{load:?}")?.as_str(), text.as_str());
    Ok(())
}

#[test]
fn worked_loads(rt: HostRuntime) -> Result<(), Fail> {
    let alloc = rt.alloc();
    // 6 * 10 * 10 / (100 * 4).
    check_load(&rt, alloc, lowest_load(6, 4, 10, 1, 2), Some((3, 2)))?;
    // 3 * 5 / (10 * 2).
    check_load(&rt, alloc, lowest_load(3, 2, 5, 0, 1), Some((3, 4)))?;
    // As many decimals as places.
    check_load(&rt, alloc, lowest_load(5, 3, 7, 4, 4), Some((35, 3)))?;
    // More decimals than places.
    check_load(&rt, alloc, lowest_load(9, 6, 1, 3, 1), Some((150, 1)))?;
    Ok(())
}

#[test]
fn no_exit_and_no_bound_give_zero_over_one(rt: HostRuntime) -> Result<(), Fail> {
    let alloc = rt.alloc();
    check_load(&rt, alloc, lowest_load(0, 7, 5, 3, 2), Some((0, 1)))?;
    check_load(&rt, alloc, lowest_load(4, 6, 0, 0, 36), Some((0, 1)))?;
    Ok(())
}

#[test]
fn a_product_of_183_bits_that_fits_in_lowest_terms(rt: HostRuntime) -> Result<(), Fail> {
    let alloc = rt.alloc();
    let exit = (1 << 63) - 1;
    let c = 1_000_000_000_000_000_000;
    let numbers = (9_223_372_036_854_775_807, 4_611_686_018_427_387_904);
    check_load(
        &rt,
        alloc,
        lowest_load(exit, 1 << 62, c, 18, 36),
        Some(numbers),
    )?;
    let numbers = (999_999_999_999_999_999, 500_000_000_000_000_000);
    check_load(
        &rt,
        alloc,
        lowest_load(1 << 62, 1 << 61, c - 1, 18, 36),
        Some(numbers),
    )?;
    // Nothing cancels.
    check_load(&rt, alloc, lowest_load(exit, 1, c, 18, 0), None)?;
    check_load(&rt, alloc, lowest_load(1, 1 << 62, 1, 0, 36), None)?;
    Ok(())
}

#[test]
fn the_greatest_numerators(rt: HostRuntime) -> Result<(), Fail> {
    let alloc = rt.alloc();
    // 2^127 - 32, which is 3 * (2^61 - 1) * ((2^61 + 1) / 3) * 2^5; and 2^127.
    let fits = lowest_load(
        6_917_529_027_641_081_853,
        3125,
        768_614_336_404_564_651,
        5,
        0,
    );
    let num = 170_141_183_460_469_231_731_687_303_715_884_105_696;
    check_load(&rt, alloc, fits, Some((num, 1)))?;
    check_load(
        &rt,
        alloc,
        lowest_load(1 << 62, 15_625, 1 << 59, 6, 0),
        None,
    )?;
    Ok(())
}

#[test]
fn the_greatest_divisors(rt: HostRuntime) -> Result<(), Fail> {
    let alloc = rt.alloc();
    // The greatest multiple of 5^28 below 2^126, and the next.
    let reward = 2_283_596_308_329_535_809;
    let den = 85_070_591_730_234_615_840_017_795_562_744_140_625;
    check_load(
        &rt,
        alloc,
        lowest_load(1 << 36, reward, 390_625, 0, 36),
        Some((1, den)),
    )?;
    check_load(
        &rt,
        alloc,
        lowest_load(1 << 36, reward + 1, 390_625, 0, 36),
        None,
    )?;
    Ok(())
}
