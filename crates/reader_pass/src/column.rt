// The column of a state.

ghost use Rattle.std.specs.Prelude.{◌≡◌, ℕ, ◌+◌, ◌<◌, ◌≤◌, length};
ghost use Rattle.bound_grid.specs.Passes.{IsPassOf, KnowsMore, notes_of};
ghost use Rattle.bound_grid.specs.SealNotes.{NotesColumn};
ghost use Rattle.mix_columns.specs.MixNumbers.{StandsFor};
ghost use Rattle.mix_columns.specs.Mixed.{one_thread_words, words_of};
ghost use Rattle.mix_columns.specs.MixLaws.{EnclosesWords};
ghost use Rattle.mix_columns.specs.PlanUntil.{ContainsUntil};
ghost use Rattle.reader_pass.specs.NotedWords.{AtTables, front_words, lower_notes, noted_words, upper_notes};
ghost use Rattle.step_core.specs.SoundPlan.{IsSoundPlan};

use bound_grid::{Board, Pass};
use mix_columns::{Mixer, settle};
use round_out::ONE;
use step_core::Bracket;

/// Looks at both words of the state in every layer, and answers the settled mix of what the pass
/// then knows: a bracket that contains the plan's until, whatever other threads do.
pub fn read(board: &Board, pass: &mut Pass, s: u32) -> Bracket
    requires sound { IsSoundPlan board.now.plan }
    requires pass { IsPassOf board.now pass.old }
    requires state { s < length board.now.plan.frame.rows }
    ensures knows { KnowsMore board.now pass.old pass.new }
    ensures answer { words_of result ≡ noted_words board.now.plan (notes_of pass.new) s }
    ensures encloses { EnclosesWords (words_of result) (one_thread_words board.now.plan s) }
    ensures contains { ContainsUntil board.now.plan s (words_of result) }
    ensures sealed { NotesColumn board.now.plan (notes_of pass.old) s → words_of result ≡ one_thread_words board.now.plan s }
    ensures lower_word { result.lower ≤ ONE }
    ensures upper_word { result.upper ≤ ONE }
{
    let plan = board.plan();
    let mixer = column(board, pass, s, plan.layers + 1);
    settle(plan, s, mixer.finish(plan))
}

/// Looks at both words of the state in so many layers, the first ones, and answers the settled mix of
/// what the pass then knows of these, with the words of all others at their worst.
///
/// Where no later layer is known it is what `read` answers, for the loads of a few layers.
pub fn read_front(board: &Board, pass: &mut Pass, s: u32, layers: u32) -> Bracket
    requires sound { IsSoundPlan board.now.plan }
    requires pass { IsPassOf board.now pass.old }
    requires state { s < length board.now.plan.frame.rows }
    requires layers { layers ≤ board.now.plan.layers + 1 }
    ensures knows { KnowsMore board.now pass.old pass.new }
    ensures answer { words_of result ≡ front_words board.now.plan (notes_of pass.new) s layers }
    ensures lower_word { result.lower ≤ ONE }
    ensures upper_word { result.upper ≤ ONE }
{
    let plan = board.plan();
    let mixer = column(board, pass, s, layers);
    settle(plan, s, mixer.rest(plan))
}

// A mixer that took the state's words of so many layers, the first ones, as the pass then notes them.
fn column(board: &Board, pass: &mut Pass, s: u32, layers: u32) -> Mixer
    requires sound { IsSoundPlan board.now.plan }
    requires pass { IsPassOf board.now pass.old }
    requires state { s < length board.now.plan.frame.rows }
    requires layers { layers ≤ board.now.plan.layers + 1 }
    ensures knows { KnowsMore board.now pass.old pass.new }
    ensures stands { StandsFor board.now.plan result (lower_notes board.now.plan s (notes_of pass.new) layers)
        (upper_notes board.now.plan s (notes_of pass.new) layers) }
    ensures sealed { NotesColumn board.now.plan (notes_of pass.old) s
        → (j : ℕ) → j < layers → AtTables board.now.plan s (notes_of pass.new) j }
{
    let plan = board.plan();
    let mut mixer = Mixer::start(plan);
    for k in 0..layers {
        let low = board.load_lower(pass, k, s);
        let high = board.load_upper(pass, k, s);
        mixer.add(plan, low, high);
    }
    mixer
}
