ghost use Rattle.std.specs.Prelude.{◌≡◌, ◌*◌, ◌^◌, ◌<◌};
ghost use Rattle.decimal_text.specs.Reading.{up_to_limit};

use crate::decimal::LIMIT;

const POWERS_OF_TEN: [u64; 19] = [
    1,
    10,
    100,
    1_000,
    10_000,
    100_000,
    1_000_000,
    10_000_000,
    100_000_000,
    1_000_000_000,
    10_000_000_000,
    100_000_000_000,
    1_000_000_000_000,
    10_000_000_000_000,
    100_000_000_000_000,
    1_000_000_000_000_000,
    10_000_000_000_000_000,
    100_000_000_000_000_000,
    1_000_000_000_000_000_000,
];

pub fn power_of_ten(power: usize) -> u64
    requires { power < 19 }
    ensures power { result ≡ 10 ^ power }
    ensures positive { 0 < result }
{
    POWERS_OF_TEN[power]
}

// `value * 10^power`, or `10^18` where that is greater.
pub fn shifted(value: u64, power: u128) -> u64
    ensures { result ≡ up_to_limit (value * 10 ^ power) }
{
    if value == 0 {
        return 0;
    }
    if power > 18 {
        return LIMIT;
    }
    let product = u128::from(value) * u128::from(power_of_ten(power as usize));
    product.min(u128::from(LIMIT)) as u64
}
