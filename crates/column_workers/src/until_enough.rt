// The run that ends as soon as all brackets are narrow enough.

ghost use Rattle.std.specs.Prelude.{◌≡◌, ◌+◌, ◌*◌, ◌<◌, ◌≤◌, ◌⊎◌, IfOk, IsTrue, length, vec_len, vec_capacity};
ghost use Rattle.std.specs.List.{list_all};
ghost use Rattle.bound_grid.specs.Passes.{IsPassOf, KnowsAtLeast, KnowsMore, draws_of, notes_of};
ghost use Rattle.ctmc_semantics.specs.WordBracket.{WordBracket};
ghost use Rattle.column_workers.specs.DrawnBlocks.{block_tickets};
ghost use Rattle.column_workers.specs.Hands.{AreTakenSoFar};
ghost use Rattle.column_workers.specs.Watched.{AreWatched};
ghost use Rattle.mix_columns.specs.Mixed.{words_of};
ghost use Rattle.mix_columns.specs.SideBySide.{bracket_at};
ghost use Rattle.reader_pass.specs.NotedWords.{noted_words};
ghost use Rattle.reader_pass.specs.StateBrackets.{AreOneThread, AreRead};
ghost use Rattle.step_core.specs.SoundPlan.{IsSoundPlan};

use crate::enough::Enough;
use crate::race::{Raced, race};
use crate::sure::finish;
use crate::watching::push_last;
use bound_grid::{Board, Pass};
use outside::Gate;
use reader_pass::read_states;
use std::alloc::{AllocError, Global};
use std::thread::Threads;
use step_core::{Bracket, SPLIT_DRAWS, Watch};

/// What such a run gives back: a pass, the bracket of each state, and the brackets of the watched
/// state in the order in which they were taken.
#[derive(Drop)]
pub struct Stopped {
    pub pass: Pass,
    pub brackets: Vec<Bracket>,
    pub watched: Vec<Bracket>,
}

/// Tightens the words of the board as `run` does, and ends as soon as each state's bracket is narrow
/// enough. Where some bracket never is, all words are made final.
///
/// The worker that draws the first block of a layer whose number is a power of two looks at the
/// brackets of all states first, and tells all to stop where each is narrow enough; so the last layer
/// that is tightened is at most about twice the first that would do. Workers look for that word
/// before each draw. The brackets are read again when all workers are done, and the last watched
/// bracket is one of them.
///
/// All memory is taken before any worker starts; the only error is want of it. The call waits for
/// its workers, and so returns if they do.
pub fn run_until<R: Threads + Sync, G: Gate, E: Enough>(
    rt: &R,
    alloc: Global,
    board: &Board,
    pass: Pass,
    workers: u32,
    watch: Watch,
    gate: &G,
    enough: &E,
) -> Result<Stopped, AllocError>
    requires sound { IsSoundPlan board.now.plan }
    requires pass { IsPassOf board.now pass }
    requires draws { (workers + 1) * SPLIT_DRAWS ≤ draws_of pass }
    requires some { 1 ≤ workers }
    requires few { workers ≤ 64 }
    requires state { watch.state < length board.now.plan.frame.rows }
    requires few_brackets { watch.count ≤ 1000 }
    ensures knows { IfOk result (λ end. KnowsAtLeast board.now pass end.pass) }
    ensures draws { IfOk result (λ end. draws_of pass ≤ draws_of end.pass + workers * (block_tickets board.now.plan + 1)) }
    ensures brackets { IfOk result (λ end. AreRead board.now.plan (notes_of pass) end.brackets.items) }
    ensures enough { IfOk result (λ end. IsTrue (list_all (E.is_enough enough.now) end.brackets.items)
        ⊎ AreOneThread board.now.plan end.brackets.items) }
    ensures watched { IfOk result (λ end. AreWatched board.now.plan watch.state watch.count
        (noted_words board.now.plan (notes_of pass) watch.state) (words_of (bracket_at end.brackets.items watch.state))
        end.watched.items) }
{
    let plan = board.plan();
    let mut brackets = Vec::with_capacity(alloc, plan.frame.rows.len())?;
    let Raced {
        mut pass,
        mut watched,
    } = race(rt, alloc, board, pass, workers, watch, gate, true, enough)?;
    read_enough(board, &mut pass, &mut brackets, enough);
    push_last(watch, brackets[watch.state as usize], &mut watched);
    Ok(Stopped {
        pass,
        brackets,
        watched,
    })
}

// Reads the bracket of each state. Where some bracket isn't narrow enough, all words are made final,
// and the brackets are read once more.
fn read_enough<E: Enough>(board: &Board, pass: &mut Pass, brackets: &mut Vec<Bracket>, enough: &E)
    requires sound { IsSoundPlan board.now.plan }
    requires pass { IsPassOf board.now pass.old }
    requires empty { vec_len brackets.old ≡ 0 }
    requires room { length board.now.plan.frame.rows ≤ vec_capacity brackets.old }
    ensures knows { KnowsMore board.now pass.old pass.new }
    ensures brackets { AreRead board.now.plan (notes_of pass.old) brackets.new.items }
    ensures enough { IsTrue (list_all (E.is_enough enough.now) brackets.new.items) ⊎ AreOneThread board.now.plan brackets.new.items }
{
    read_states(board, pass, brackets);
    if all_enough(brackets, enough) {
        return;
    }
    finish(board, pass);
    brackets.clear();
    read_states(board, pass, brackets);
}

// Whether each bracket is narrow enough.
fn all_enough<E: Enough>(brackets: &[Bracket], enough: &E) -> bool
    ensures { result ≡ list_all (E.is_enough enough.now) brackets.now }
{
    brackets.iter().all(|bracket| enough.enough(*bracket))
}
