// A race: passes and room first, then workers and a reader side by side, and then one pass that knows
// what all of them know.

ghost use Rattle.std.specs.Prelude.{◌≡◌, ℕ, ◌+◌, ◌-◌, ◌*◌, ◌<◌, ◌≤◌, All, IfOk, length, vec_len, vec_capacity};
ghost use Rattle.std.specs.List.{range_with_len};
ghost use Rattle.std.specs.Thread.{IsSync};
ghost use Rattle.bound_grid.specs.Passes.{IsPassOf, KnowsAtLeast, KnowsMore, draws_of, notes_of};
ghost use Rattle.column_workers.specs.DrawnBlocks.{block_tickets};
ghost use Rattle.column_workers.specs.Hands.{AreReady, AreDone, AreTakenSoFar, StayTaken, numbers};
ghost use Rattle.reader_pass.specs.NotedWords.{noted_words};
ghost use Rattle.step_core.specs.SoundPlan.{IsSoundPlan};

use crate::enough::Enough;
use crate::fork::fork;
use crate::hand::Hand;
use crate::watching::take_brackets;
use bound_grid::{Board, Pass};
use outside::Gate;
use std::alloc::{AllocError, Global};
use std::thread::{Threads, join_mut};
use step_core::{Bracket, SPLIT_DRAWS, Watch};

// A pass, and the brackets of the watched state that were taken beside the workers.
#[derive(Drop)]
pub(crate) struct Raced {
    pub(crate) pass: Pass,
    pub(crate) watched: Vec<Bracket>,
}

/// Lets so many workers race over the board, while a reader takes all but the last of the brackets
/// that are wanted. There is room for the last one.
///
/// All memory is taken before any worker starts.
pub(crate) fn race<R: Threads + Sync, G: Gate, E: Enough>(
    rt: &R,
    alloc: Global,
    board: &Board,
    mut pass: Pass,
    workers: u32,
    watch: Watch,
    gate: &G,
    early: bool,
    enough: &E,
) -> Result<Raced, AllocError>
    requires sound { IsSoundPlan board.now.plan }
    requires pass { IsPassOf board.now pass }
    requires draws { (workers + 1) * SPLIT_DRAWS ≤ draws_of pass }
    requires state { watch.state < length board.now.plan.frame.rows }
    ensures knows { IfOk result (λ end. KnowsAtLeast board.now pass end.pass) }
    ensures draws { IfOk result (λ end. draws_of pass ≤ draws_of end.pass + workers * (block_tickets board.now.plan + 1)) }
    ensures count { IfOk result (λ end. vec_len end.watched ≡ watch.count - 1) }
    ensures room { IfOk result (λ end. watch.count ≤ vec_capacity end.watched) }
    ensures taken { IfOk result (λ end. AreTakenSoFar board.now.plan watch.state
        (noted_words board.now.plan (notes_of pass) watch.state)
        (noted_words board.now.plan (notes_of end.pass) watch.state) end.watched.items) }
{
    let mut watched = Vec::with_capacity(alloc, watch.count as usize)?;
    let mut hands = hands_of(alloc, board, &mut pass, workers)?;
    let mut reader = board.split(&mut pass);
    let beside = Watch {
        state: watch.state,
        count: watch.count.saturating_sub(1),
    };
    run_beside(
        rt,
        board,
        gate,
        early,
        enough,
        workers,
        beside,
        &mut reader,
        &mut watched,
        hands.as_mut_slice(),
    );
    board.meet(&mut pass, reader);
    meet_all(board, &mut pass, hands);
    Ok(Raced { pass, watched })
}

// A pass for each worker.
fn hands_of(
    alloc: Global,
    board: &Board,
    pass: &mut Pass,
    workers: u32,
) -> Result<Vec<Hand>, AllocError>
    requires pass { IsPassOf board.now pass.old }
    requires draws { workers * SPLIT_DRAWS ≤ draws_of pass.old }
    ensures pass { IsPassOf board.now pass.new }
    ensures kept { notes_of pass.new ≡ notes_of pass.old }
    ensures draws { IfOk result (λ _. draws_of pass.new + workers * SPLIT_DRAWS ≡ draws_of pass.old) }
    ensures count { IfOk result (λ hands. vec_len hands ≡ workers) }
    ensures ready { IfOk result (λ hands. AreReady board.now hands.items) }
    ensures numbers { IfOk result (λ hands. numbers hands.items ≡ range_with_len 0 workers) }
{
    let mut hands = Vec::with_capacity(alloc, workers as usize)?;
    for number in 0..workers {
        let pass = board.split(pass);
        hands.push(Hand { number, pass })?;
    }
    Ok(hands)
}

// The workers, and the reader beside them. It takes no memory.
fn run_beside<R: Threads + Sync, G: Gate, E: Enough>(
    rt: &R,
    board: &Board,
    gate: &G,
    early: bool,
    enough: &E,
    workers: u32,
    beside: Watch,
    reader: &mut Pass,
    watched: &mut Vec<Bracket>,
    hands: &mut [Hand],
)
    requires sound { IsSoundPlan board.now.plan }
    requires ready { AreReady board.now hands.old }
    requires reader { IsPassOf board.now reader.old }
    requires state { beside.state < length board.now.plan.frame.rows }
    requires room { vec_len watched.old + beside.count ≤ vec_capacity watched.old }
    ensures done { AreDone board.now early hands.new }
    ensures numbers { numbers hands.new ≡ numbers hands.old }
    ensures knows { KnowsMore board.now reader.old reader.new }
    ensures count { vec_len watched.new ≡ vec_len watched.old + beside.count }
    ensures room { vec_capacity watched.old ≤ vec_capacity watched.new }
    ensures taken { StayTaken board.now.plan beside.state (noted_words board.now.plan (notes_of reader.old) beside.state)
        (noted_words board.now.plan (notes_of reader.new) beside.state) watched.old.items watched.new.items }
{
    join_mut(
        rt,
        &mut ||
            requires handles { IsSync R.row × IsSync G.row × IsSync E.row }
            requires sound { IsSoundPlan board.now.plan }
            requires ready { AreReady board.now hands.now }
            ensures done { AreDone board.entry.now early hands.exit.now }
            ensures numbers { numbers hands.exit.now ≡ numbers hands.entry.now }
        { fork(rt, board, gate, early, enough, hands) },
        &mut ||
            requires sound { IsSoundPlan board.now.plan }
            requires reader { IsPassOf board.now reader.now }
            requires state { beside.state < length board.now.plan.frame.rows }
            requires room { vec_len watched.now + beside.count ≤ vec_capacity watched.now }
            ensures knows { KnowsMore board.entry.now reader.entry.now reader.exit.now }
            ensures count { vec_len watched.exit.now ≡ vec_len watched.entry.now + beside.count }
            ensures room { vec_capacity watched.entry.now ≤ vec_capacity watched.exit.now }
            ensures taken { StayTaken board.entry.now.plan beside.state
                (noted_words board.entry.now.plan (notes_of reader.entry.now) beside.state)
                (noted_words board.entry.now.plan (notes_of reader.exit.now) beside.state) watched.entry.now.items
                watched.exit.now.items }
        { take_brackets(board, gate, workers, beside, reader, watched) },
    );
}

// All passes meet.
fn meet_all(board: &Board, pass: &mut Pass, mut hands: Vec<Hand>)
    requires pass { IsPassOf board.now pass.old }
    requires passes { All (λ hand. IsPassOf board.now hand.pass) hands.items }
    ensures knows { KnowsAtLeast board.now pass.old pass.new }
    ensures draws { (least : ℕ) → All (λ hand. least ≤ draws_of hand.pass) hands.items
        → draws_of pass.old + vec_len hands * least ≤ draws_of pass.new }
{
    while let Some(hand) = hands.pop() {
        let Hand {
            number: _,
            pass: other,
        } = hand;
        board.meet(pass, other);
    }
}
