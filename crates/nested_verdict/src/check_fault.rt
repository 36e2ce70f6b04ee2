// Why a formula isn't answered.

use std::alloc::AllocError;
use step_core::PlanError;
use thiserror::Error;

/// Why a formula isn't answered.
#[derive(Clone, Copy, Debug, PartialEq, Eq, Error)]
pub enum CheckFault {
    /// An until in the formula has no plan: that of the first such one, operands before their
    /// operator, the left one before the right one. It never holds `PlanError::Memory`.
    #[error("an until of the formula has no plan")]
    Refused(PlanError),
    /// There is no memory for a plan, for its table, for the workers, or for the lists of verdicts
    /// and brackets.
    #[error("there is not enough memory to answer the formula")]
    Memory,
}

impl From<PlanError> for CheckFault {
    ghost use Rattle.std.specs.Prelude.{◌≡◌};
    ghost use Rattle.nested_verdict.specs.PlanFault.{plan_fault};

    ghost from_gives = { λ error fault. fault ≡ plan_fault error };

    fn from(error: PlanError) -> Self {
        match error {
            PlanError::Memory => CheckFault::Memory,
            PlanError::TooLong
            | PlanError::TooLarge
            | PlanError::NoRewards
            | PlanError::ZeroReward(_)
            | PlanError::RewardRange(_)
            | PlanError::BoundRange => CheckFault::Refused(error),
        }
    }
}

impl From<AllocError> for CheckFault {
    ghost use Rattle.std.specs.Prelude.{◌≡◌};
    ghost use Rattle.nested_verdict.specs.declared.check_fault.CheckFault.TheVariants.{Memory};

    ghost from_gives = { λ _ fault. fault ≡ Memory };

    fn from(_: AllocError) -> Self {
        CheckFault::Memory
    }
}
