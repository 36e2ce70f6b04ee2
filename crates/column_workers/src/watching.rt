// The reader beside the workers, and the last bracket.

ghost use Rattle.std.specs.Prelude.{◌≡◌, ◌+◌, ◌-◌, ◌<◌, ◌≤◌, length, vec_len, vec_capacity};
ghost use Rattle.bound_grid.specs.Passes.{IsPassOf, KnowsMore, notes_of};
ghost use Rattle.ctmc_semantics.specs.WordBracket.{WordBracket};
ghost use Rattle.column_workers.specs.Hands.{AreTakenSoFar, IsNext, StayTaken};
ghost use Rattle.column_workers.specs.Watched.{AreWatched};
ghost use Rattle.mix_columns.specs.Mixed.{words_of};
ghost use Rattle.reader_pass.specs.NotedWords.{noted_words};
ghost use Rattle.step_core.specs.PlanLists.{PlanLists};
ghost use Rattle.step_core.specs.SoundPlan.{IsSoundPlan};

use bound_grid::{Board, Pass};
use outside::Gate;
use reader_pass::read;
use step_core::{Bracket, Watch};

/// Takes `watch.count` brackets of `watch.state`, and pauses at the gate as `reader` before each.
///
/// It takes no memory: there is room for them.
pub(crate) fn take_brackets<G: Gate>(
    board: &Board,
    gate: &G,
    reader: u32,
    watch: Watch,
    pass: &mut Pass,
    watched: &mut Vec<Bracket>,
)
    requires sound { IsSoundPlan board.now.plan }
    requires pass { IsPassOf board.now pass.old }
    requires state { watch.state < length board.now.plan.frame.rows }
    requires room { vec_len watched.old + watch.count ≤ vec_capacity watched.old }
    ensures knows { KnowsMore board.now pass.old pass.new }
    ensures count { vec_len watched.new ≡ vec_len watched.old + watch.count }
    ensures room { vec_capacity watched.old ≤ vec_capacity watched.new }
    ensures taken { StayTaken board.now.plan watch.state (noted_words board.now.plan (notes_of pass.old) watch.state)
        (noted_words board.now.plan (notes_of pass.new) watch.state) watched.old.items watched.new.items }
{
    for i in 0..watch.count {
        gate.pause(reader, i);
        let bracket = read(board, pass, watch.state);
        watched.push(bracket).unwrap();
    }
}

/// The last bracket, where any is wanted. There is room for it.
pub(crate) fn push_last(watch: Watch, last: Bracket, watched: &mut Vec<Bracket>)
    requires count { vec_len watched.old ≡ watch.count - 1 }
    requires room { watch.count ≤ vec_capacity watched.old }
    ensures { (plan : PlanLists) (outer now : WordBracket) → AreTakenSoFar plan watch.state outer now watched.old.items
        → IsNext plan watch.state now last → AreWatched plan watch.state watch.count outer (words_of last) watched.new.items }
{
    if watch.count > 0 {
        watched.push(last).unwrap();
    }
}
