use std::marker::Model;

/// The rounded Poisson weights of each number of jumps from 0 to a plan's last layer.
///
/// A weight is a fraction of the greatest one, in units of `2^-62`: `low` has it rounded down and
/// `high` rounded up. Contracts see the two lists.
#[derive(Debug, Drop)]
pub struct Weights {
    pub low: Vec<u64>,
    pub high: Vec<u64>,
}

impl Model for Weights {
    ghost use Rattle.step_core.specs.WeightLists.{WeightLists};

    ghost Value = { WeightLists };

    ghost view = { λ w. record { low = w.low.items; high = w.high.items } };
}
