use std::alloc::AllocError;

/// Why an until has no plan.
#[derive(Clone, Copy, Debug, PartialEq, Eq)]
pub enum PlanError {
    /// The horizon of the bounded until is past the greatest one.
    TooLong,
    /// The plan's layers have more words than a board holds.
    TooLarge,
    /// A reward bound over a model without rewards.
    NoRewards,
    /// A reward bound, and this state, counted from 0, is the first with the reward 0.
    ZeroReward(u32),
    /// A reward bound, and this state's reward times the exit rate of the state that is left fastest
    /// for each unit of reward passes 63 bits.
    RewardRange(u32),
    /// The reward bound's load doesn't fit a load's numbers.
    BoundRange,
    /// There was no memory.
    Memory,
}

impl From<AllocError> for PlanError {
    ghost use Rattle.std.specs.Prelude.{◌≡◌};
    ghost use Rattle.step_core.specs.declared.plan_error.PlanError.{PlanError};

    ghost from_gives = { λ _ e. e ≡ PlanError.Memory };

    fn from(_error: AllocError) -> PlanError {
        PlanError::Memory
    }
}
