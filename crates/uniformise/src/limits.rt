// How large a plan's table may be, and how far a bounded until looks.
ghost use Rattle.std.specs.Prelude.{◌≡◌, Some, None, ◌≤◌, IfOk, MatchResult};
ghost use Rattle.ctmc_semantics.specs.Horizon.{horizon};
ghost use Rattle.ctmc_semantics.specs.Weights.{mode};
ghost use Rattle.poisson_tail.specs.declared.layers.TheConstants.{MOST_LAYERS};
ghost use Rattle.uniformise.specs.TimePlan.{plan_refusal, table_refusal};

use poisson_tail::{Load, horizon};
use step_core::PlanError;

/// The words of the greatest table that a plan may have, one for each number of jumps and each
/// state.
pub const MOST_WORDS: u64 = 1 << 23;

/// Why a plan of so many states that looks at so many jumps is refused: its table would have too
/// many words.
pub(crate) fn check_words(jumps: u32, states: u32) -> Result<(), PlanError>
    ensures { MatchResult result (λ _. table_refusal jumps states ≡ None) (λ refusal. table_refusal jumps states ≡ Some refusal) }
{
    if (u64::from(jumps) + 1) * u64::from(states) > MOST_WORDS {
        return Err(PlanError::TooLarge);
    }
    Ok(())
}

/// The number of jumps up to which an until with a load is looked at over so many states, past which
/// at most `2^-bits` is left; `TooLong` or `TooLarge` where that is too far, or its table too large.
pub fn last_layer(load: &Load, bits: u32, states: u32) -> Result<u32, PlanError>
    ensures refusal { MatchResult result (λ _. plan_refusal (horizon load.now bits) states ≡ None)
        (λ refusal. plan_refusal (horizon load.now bits) states ≡ Some refusal) }
    ensures value { IfOk result (λ last. last ≡ horizon load.now bits) }
    ensures few { IfOk result (λ last. last ≤ MOST_LAYERS) }
    ensures has_mode { IfOk result (λ last. mode load.now ≤ last) }
{
    let Some(last) = horizon(load, bits) else {
        return Err(PlanError::TooLong);
    };
    check_words(last, states)?;
    Ok(last)
}
