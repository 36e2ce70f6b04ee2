// The states' rewards.
ghost use Rattle.std.specs.Prelude.{◌≡◌, ◌<◌, ◌^◌, length, slice_index};
ghost use Rattle.model_core.specs.Files.{RewLists, IsRew};

use crate::limits::AMOUNT_LIMIT;
use std::marker::Model;

/// Rewards, one for each state: with scale e a reward q stands for `q / 10^e` for each unit of time in the state.
#[derive(Debug, Drop)]
pub struct Rew {
    pub(crate) scale: u32,
    rewards: Vec<u64>,
}

impl Model for Rew {
    ghost Value = { RewLists };

    ghost view = { λ a. record { scale = a.scale; rewards = a.rewards.items } };

    ghost invariant = { λ a. IsRew (record { scale = a.scale; rewards = a.rewards.items }) };
}

impl Rew {
    /// At most 18 decimals, and each reward below `2^63`.
    pub fn new(scale: u32, rewards: Vec<u64>) -> Rew
        requires { IsRew (record { scale = scale; rewards = rewards.items }) }
        ensures { result ≡ record { scale = scale; rewards = rewards.items } }
    {
        Rew { scale, rewards }
    }

    /// The reward of a state.
    pub(crate) fn reward(&self, s: usize) -> u64
        requires { s < length self.now.rewards }
        ensures value { result ≡ slice_index self.now.rewards s }
        ensures bound { result < AMOUNT_LIMIT }
    {
        self.rewards[s]
    }
}
