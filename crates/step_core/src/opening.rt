// The words of a board at the start.

ghost use Rattle.std.specs.Prelude.{◌≡◌, ◌++◌, IfOk, replicate, map, if◌then◌else◌};
ghost use Rattle.step_core.specs.Limits.{opening_words};
ghost use Rattle.step_core.specs.SoundPlan.{IsSoundPlan};

use crate::layout::Layout;
use crate::plan::Plan;
use round_out::ONE;
use std::alloc::{AllocError, Global};

// Appends a word so many times.
fn push_many(words: &mut Vec<u64>, count: usize, word: u64) -> Result<(), AllocError>
    ensures { IfOk result (λ _. words.new.items ≡ words.old.items ++ replicate count word) }
{
    for _ in 0..count {
        words.push(word)?;
    }
    Ok(())
}

// Appends the words of a set: 1 for each of its states, and 0 for each other.
fn push_set(words: &mut Vec<u64>, set: &[bool]) -> Result<(), AllocError>
    ensures { IfOk result (λ _. words.new.items ≡ words.old.items ++ map (λ holds. if holds then ONE else 0) set.now) }
{
    for holds in set {
        words.push(if *holds { ONE } else { 0 })?;
    }
    Ok(())
}

/// The words of a plan's board at the start: layer 0 is at its limits and sealed, and nothing is
/// known of the other layers.
///
/// The only error is want of memory.
pub fn words_at_start(alloc: Global, plan: &Plan) -> Result<Vec<u64>, AllocError>
    requires sound { IsSoundPlan plan.now }
    ensures { IfOk result (λ words. words.items ≡ opening_words plan.now) }
{
    let layout = Layout::of(plan);
    let blocks = layout.blocks() as usize;
    let layers = layout.layers() as usize;
    let rest = layers * layout.states() as usize;
    let mut words = Vec::with_capacity(alloc, layout.word_count())?;
    words.push(0)?;
    push_set(&mut words, &plan.frame.sets.goal_must)?;
    push_many(&mut words, rest, 0)?;
    words.extend_from_slice(&plan.start_upper)?;
    push_many(&mut words, rest, ONE)?;
    push_many(&mut words, blocks, 1)?;
    push_many(&mut words, layers * blocks, 0)?;
    push_many(&mut words, 2, 0)?;
    Ok(words)
}
