// The state that decides how fast the dual chain jumps.
ghost use Rattle.std.specs.Prelude.{◌≡◌, ◌*◌, ◌<◌, ◌^◌, Some, IsSome, nat_lt};
ghost use Rattle.ctmc_semantics.specs.Chain.{exit_rate};
ghost use Rattle.model_core.specs.Model.{Rewards, labelled_chain, model_chain};
ghost use Rattle.reward_dual.specs.Deciding.{deciding_state};

use model_core::Model;

// A state's exit rate and its reward.
#[derive(Clone, Copy, Debug)]
pub(crate) struct Earning {
    pub(crate) exit: u64,
    pub(crate) reward: u64,
}

impl Earning {
    // Those of a state.
    fn of(model: &Model, s: u32) -> Earning
        requires rewards { IsSome model.now.rewards }
        requires state { s < model.now.n }
        ensures exit { result.exit ≡ exit_rate (model_chain model.now) s }
        ensures reward { (rewards : Rewards) → (labelled_chain model.now).rewards ≡ Some rewards → result.reward ≡ rewards.reward s }
        ensures exit_fits { result.exit < 2 ^ 63 }
        ensures reward_fits { result.reward < 2 ^ 63 }
    {
        Earning {
            exit: model.exit(s),
            reward: model.reward(s),
        }
    }
}

/// The exit rate and the reward of the first state that is left fastest for each unit of reward.
pub(crate) fn fastest_state(model: &Model) -> Earning
    requires rewards { IsSome model.now.rewards }
    ensures exit { (rewards : Rewards) → (labelled_chain model.now).rewards ≡ Some rewards
        → result.exit ≡ exit_rate (model_chain model.now) (deciding_state (model_chain model.now) rewards.reward) }
    ensures reward { (rewards : Rewards) → (labelled_chain model.now).rewards ≡ Some rewards
        → result.reward ≡ rewards.reward (deciding_state (model_chain model.now) rewards.reward) }
    ensures exit_fits { result.exit < 2 ^ 63 }
    ensures reward_fits { result.reward < 2 ^ 63 }
{
    let n = model.n();
    let mut fastest = Earning::of(model, 0);
    for s in 1..n {
        let here = Earning::of(model, s);
        if is_left_faster(here, fastest) {
            fastest = here;
        }
    }
    fastest
}

// Whether the first is left faster for each unit of reward.
fn is_left_faster(here: Earning, other: Earning) -> bool
    requires exit { here.exit < 2 ^ 63 }
    requires other_exit { other.exit < 2 ^ 63 }
    requires reward { here.reward < 2 ^ 63 }
    requires other_reward { other.reward < 2 ^ 63 }
    ensures { result ≡ nat_lt (other.exit * here.reward) (here.exit * other.reward) }
{
    u128::from(other.exit) * u128::from(here.reward)
        < u128::from(here.exit) * u128::from(other.reward)
}
