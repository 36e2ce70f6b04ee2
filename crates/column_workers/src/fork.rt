// The fork: each half of the workers beside the other.

ghost use Rattle.std.specs.Prelude.{◌≡◌, ◌<◌, length};
ghost use Rattle.std.specs.Thread.{IsSync};
ghost use Rattle.column_workers.specs.Hands.{AreReady, AreDone, numbers};
ghost use Rattle.step_core.specs.SoundPlan.{IsSoundPlan};

use crate::enough::Enough;
use crate::hand::Hand;
use crate::worker::work;
use bound_grid::Board;
use outside::Gate;
use std::thread::{Threads, join_mut};

/// Runs the workers side by side.
pub(crate) fn fork<R: Threads + Sync, G: Gate, E: Enough>(
    rt: &R,
    board: &Board,
    gate: &G,
    early: bool,
    enough: &E,
    hands: &mut [Hand],
)
    requires sound { IsSoundPlan board.now.plan }
    requires ready { AreReady board.now hands.old }
    ensures done { AreDone board.now early hands.new }
    ensures numbers { numbers hands.new ≡ numbers hands.old }
{
    if hands.len() < 2 {
        run_one(board, gate, early, enough, hands);
        return;
    }
    let (front, back) = hands.split_at_mut(hands.len() / 2);
    join_mut(
        rt,
        &mut ||
            requires handles { IsSync R.row × IsSync G.row × IsSync E.row }
            requires sound { IsSoundPlan board.now.plan }
            requires ready { AreReady board.now front.now }
            ensures done { AreDone board.entry.now early front.exit.now }
            ensures numbers { numbers front.exit.now ≡ numbers front.entry.now }
        { fork(rt, board, gate, early, enough, front) },
        &mut ||
            requires handles { IsSync R.row × IsSync G.row × IsSync E.row }
            requires sound { IsSoundPlan board.now.plan }
            requires ready { AreReady board.now back.now }
            ensures done { AreDone board.entry.now early back.exit.now }
            ensures numbers { numbers back.exit.now ≡ numbers back.entry.now }
        { fork(rt, board, gate, early, enough, back) },
    );
}

// Runs the one worker, where there is one.
fn run_one<G: Gate, E: Enough>(board: &Board, gate: &G, early: bool, enough: &E, hands: &mut [Hand])
    requires sound { IsSoundPlan board.now.plan }
    requires one { length hands.old < 2 }
    requires ready { AreReady board.now hands.old }
    ensures done { AreDone board.now early hands.new }
    ensures numbers { numbers hands.new ≡ numbers hands.old }
{
    if hands.len() == 1 {
        let hand = &mut hands[0];
        work(board, &mut hand.pass, hand.number, gate, early, enough);
    }
}
