// The first states for which an until with a bound on the reward is refused.
ghost use Rattle.std.specs.Prelude.{◌≡◌, ◌<◌, Some, IsSome};
ghost use Rattle.model_core.specs.Model.{Rewards, labelled_chain, model_chain};
ghost use Rattle.reward_dual.specs.Deciding.{deciding_rate};
ghost use Rattle.reward_dual.specs.RewardRefusal.{first_below, earns_nothing, passes_range};

use model_core::Model;

// Divisors of rows are below this.
const RANGE: u128 = 1 << 63;

/// The first state whose reward is 0.
pub(crate) fn first_without_reward(model: &Model) -> Option<u32>
    requires rewards { IsSome model.now.rewards }
    ensures { (rewards : Rewards) → (labelled_chain model.now).rewards ≡ Some rewards
        → result ≡ first_below model.now.n (earns_nothing rewards) }
{
    for s in 0..model.n() {
        if model.reward(s) == 0 {
            return Some(s);
        }
    }
    None
}

/// The first state whose reward times the deciding rate doesn't fit.
pub(crate) fn first_past_range(model: &Model, rate: u64) -> Option<u32>
    requires rewards { IsSome model.now.rewards }
    requires rate { (rewards : Rewards) → (labelled_chain model.now).rewards ≡ Some rewards
        → rate ≡ deciding_rate (model_chain model.now) rewards.reward }
    ensures { (rewards : Rewards) → (labelled_chain model.now).rewards ≡ Some rewards
        → result ≡ first_below model.now.n (passes_range (labelled_chain model.now) rewards) }
{
    for s in 0..model.n() {
        if RANGE <= u128::from(model.reward(s)) * u128::from(rate) {
            return Some(s);
        }
    }
    None
}
