// What is known of a state's bracket beside its mix.

ghost use Rattle.std.specs.Prelude.{◌≡◌, ◌<◌, ◌≤◌, length};
ghost use Rattle.mix_columns.specs.Mixed.{plan_settle, words_of};
ghost use Rattle.step_core.specs.SoundPlan.{IsSoundPlan};

use round_out::ONE;
use step_core::{Bracket, Plan};

/// The state's settled bracket: 1 where it surely is the goal, 0 where it can't reach the goal, and
/// its mix for the others.
pub fn settle(plan: &Plan, state: u32, mixed: Bracket) -> Bracket
    requires sound { IsSoundPlan plan.now }
    requires state { state < length plan.now.frame.rows }
    ensures words { words_of result ≡ plan_settle plan.now state (words_of mixed) }
    ensures lower { mixed.lower ≤ ONE → result.lower ≤ ONE }
    ensures upper { mixed.upper ≤ ONE → result.upper ≤ ONE }
{
    if plan.frame.sets.goal_must[state as usize] {
        Bracket {
            lower: ONE,
            upper: ONE,
        }
    } else if plan.reach[state as usize] {
        mixed
    } else {
        Bracket { lower: 0, upper: 0 }
    }
}
