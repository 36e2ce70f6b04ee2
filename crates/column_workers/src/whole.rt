// The whole run: until all words are final.

ghost use Rattle.std.specs.Prelude.{◌≡◌, ◌+◌, ◌-◌, ◌*◌, ◌<◌, ◌≤◌, IfOk, length, vec_len, vec_capacity};
ghost use Rattle.bound_grid.specs.Passes.{IsPassOf, KnowsAtLeast, KnowsMore, draws_of, notes_of};
ghost use Rattle.bound_grid.specs.SealNotes.{NotesAll};
ghost use Rattle.ctmc_semantics.specs.WordBracket.{WordBracket};
ghost use Rattle.column_workers.specs.DrawnBlocks.{block_tickets};
ghost use Rattle.column_workers.specs.Hands.{AreTakenSoFar};
ghost use Rattle.column_workers.specs.Watched.{AreWatched};
ghost use Rattle.mix_columns.specs.Mixed.{one_thread_words};
ghost use Rattle.reader_pass.specs.NotedWords.{noted_words};
ghost use Rattle.step_core.specs.SoundPlan.{IsSoundPlan};

use crate::enough::Never;
use crate::race::{Raced, race};
use crate::sure::finish;
use crate::watching::push_last;
use bound_grid::{Board, Pass};
use outside::Gate;
use reader_pass::read;
use std::alloc::{AllocError, Global};
use std::thread::Threads;
use step_core::{Bracket, SPLIT_DRAWS, Watch};

/// What a run gives back: a pass that knows every seal, and the brackets of the watched state in the
/// order in which they were taken.
#[derive(Drop)]
pub struct RunEnd {
    pub pass: Pass,
    pub watched: Vec<Bracket>,
}

/// Makes all words of the board final by `workers` workers, while a reader takes brackets of a
/// state.
///
/// Workers are numbered from 0. They draw tickets: the first ticket is for block 0 of layer 1, the
/// next for block 1, and so on through all layers, so no block is tightened twice because somebody is
/// late. Before a block a worker makes sure of the layers before, and does itself what it finds
/// undone; so no worker waits for another. It pauses at the gate before its first draw, as in layer
/// 1, and before its first block of each later layer in which it has one. The reader takes all but
/// the last of `watch.count` brackets, and pauses at the gate as the worker after the last before
/// each, with their numbers from 0; the last bracket is read when all workers are done.
///
/// All memory is taken before any worker starts; the only error is want of it. The call waits for
/// its workers, and so returns if they do.
pub fn run<R: Threads + Sync, G: Gate>(
    rt: &R,
    alloc: Global,
    board: &Board,
    pass: Pass,
    workers: u32,
    watch: Watch,
    gate: &G,
) -> Result<RunEnd, AllocError>
    requires sound { IsSoundPlan board.now.plan }
    requires pass { IsPassOf board.now pass }
    requires draws { (workers + 1) * SPLIT_DRAWS ≤ draws_of pass }
    requires some { 1 ≤ workers }
    requires few { workers ≤ 64 }
    requires state { watch.state < length board.now.plan.frame.rows }
    requires few_brackets { watch.count ≤ 1000 }
    ensures knows { IfOk result (λ end. KnowsAtLeast board.now pass end.pass) }
    ensures draws { IfOk result (λ end. draws_of pass ≤ draws_of end.pass + workers * (block_tickets board.now.plan + 1)) }
    ensures sealed { IfOk result (λ end. NotesAll board.now.plan (notes_of end.pass)) }
    ensures watched { IfOk result (λ end. AreWatched board.now.plan watch.state watch.count
        (noted_words board.now.plan (notes_of pass) watch.state) (one_thread_words board.now.plan watch.state) end.watched.items) }
{
    let Raced {
        mut pass,
        mut watched,
    } = race(rt, alloc, board, pass, workers, watch, gate, false, &Never)?;
    finish(board, &mut pass);
    let last = read(board, &mut pass, watch.state);
    push_last(watch, last, &mut watched);
    Ok(RunEnd { pass, watched })
}
