// One transition.
ghost use Rattle.std.specs.Prelude.{◌≡◌};
ghost use Rattle.model_core.specs.Pairs.{pair_number};

/// A transition from a state to a state, both from 0, at a rate in whole numbers of the chain's scale: with scale d
/// the rate is `rate / 10^d` for each unit of time.
#[derive(Clone, Copy, Debug, PartialEq, Eq)]
pub struct Rate {
    pub from: u32,
    pub to: u32,
    pub rate: u64,
}

/// The number of a pair of states, which orders pairs by the state that is left, and then by the state that is reached.
pub(crate) fn pair_number(from: u32, to: u32) -> u64
    ensures { result ≡ pair_number from to }
{
    (u64::from(from) << 32) + u64::from(to)
}
