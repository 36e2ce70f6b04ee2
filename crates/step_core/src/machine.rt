ghost use Rattle.std.specs.Prelude.{◌≡◌, ◌<◌, ◌≤◌, IfOk, IfErr, length, slice_index, ◌==◌};
ghost use Rattle.step_core.specs.CoreLists.{pass_at, lower_at, upper_at, seal_at, ticket_at, stop_at, opening};
ghost use Rattle.step_core.specs.Good.{Good};
ghost use Rattle.step_core.specs.Places.{blocks, word_count};
ghost use Rattle.step_core.specs.SoundPlan.{IsSoundPlan};

use crate::draws::MOST_DRAWS;
use crate::layout::Layout;
use crate::opening::words_at_start;
use crate::pass_notes::PassNotes;
use crate::plan::Plan;
use std::alloc::{AllocError, Global};
use std::marker::Model;

/// A board without threads: its words, and for each pass, live or ended, what it knows of them.
/// One event after another is done on it.
///
/// Contracts see the lists.
#[derive(Debug, Drop)]
pub struct Core {
    pub(crate) layout: Layout,
    pub(crate) words: Vec<u64>,
    pub(crate) passes: Vec<PassNotes>,
}

impl Model for Core {
    ghost use Rattle.step_core.specs.CoreLists.{CoreLists};

    ghost Value = { CoreLists };

    ghost use Rattle.step_core.specs.CoreFits.{CoreFits};

    ghost view = { λ c. record { sizes = c.layout; words = c.words.items; passes = c.passes.items } };

    ghost invariant = { λ c. CoreFits record { sizes = c.layout; words = c.words.items; passes = c.passes.items } };
}

impl Core {
    /// The machine at the start. It has one pass, number 0, which knows all words and has all draws.
    ///
    /// The only error is want of memory.
    pub fn open(alloc: Global, plan: &Plan) -> Result<Core, AllocError>
        requires sound { IsSoundPlan plan.now }
        ensures opening { IfOk result (λ core. core ≡ opening plan.now) }
        ensures good { IfOk result (Good plan.now) }
    {
        let words = words_at_start(alloc, plan)?;
        let notes = words_at_start(alloc, plan)?;
        let first = PassNotes {
            live: true,
            notes,
            tickets: Vec::new(alloc),
            draws: MOST_DRAWS,
        };
        let passes = vec![in alloc; first]?;
        Ok(Core {
            layout: Layout::of(plan),
            words,
            passes,
        })
    }

    /// The number of passes, live or ended.
    pub fn passes(&self) -> u32
        ensures { result ≡ length self.now.passes }
    {
        self.passes.len() as u32
    }

    /// Whether a pass is live.
    pub fn live(&self, pass: u32) -> bool
        requires pass { pass < length self.now.passes }
        ensures { result ≡ (pass_at self.now pass).live }
    {
        self.passes[pass as usize].live
    }

    /// The lower word of a state in a layer.
    pub fn lower(&self, k: u32, s: u32) -> u64
        requires layer { k ≤ self.now.sizes.layers }
        requires state { s < self.now.sizes.states }
        ensures { result ≡ lower_at self.now.sizes self.now.words k s }
    {
        self.words[self.layout.lower_place(k, s)]
    }

    /// The upper word of a state in a layer.
    pub fn upper(&self, k: u32, s: u32) -> u64
        requires layer { k ≤ self.now.sizes.layers }
        requires state { s < self.now.sizes.states }
        ensures { result ≡ upper_at self.now.sizes self.now.words k s }
    {
        self.words[self.layout.upper_place(k, s)]
    }

    /// Whether the seal of a block in a layer is set.
    pub fn seal(&self, k: u32, b: u32) -> bool
        requires layer { k ≤ self.now.sizes.layers }
        requires block { b < blocks self.now.sizes }
        ensures { result ≡ (seal_at self.now.sizes self.now.words k b == 1) }
    {
        self.words[self.layout.seal_place(k, b)] == 1
    }

    /// The next ticket.
    pub fn ticket(&self) -> u64
        ensures { result ≡ ticket_at self.now.sizes self.now.words }
    {
        self.words[self.layout.ticket_place()]
    }

    /// Whether the stop word is set.
    pub fn stopped(&self) -> bool
        ensures { result ≡ (stop_at self.now.sizes self.now.words == 1) }
    {
        self.words[self.layout.stop_place()] == 1
    }

    /// The tickets that a pass has drawn, or got from another pass, in this order.
    pub fn tickets(&self, pass: u32) -> &[u64]
        requires pass { pass < length self.now.passes }
        ensures { result.now ≡ (pass_at self.now pass).tickets }
    {
        let known = &self.passes[pass as usize];
        &known.tickets
    }

    /// How often a pass may draw.
    pub fn draws(&self, pass: u32) -> u64
        requires pass { pass < length self.now.passes }
        ensures { result ≡ (pass_at self.now pass).draws }
    {
        self.passes[pass as usize].draws
    }

    /// A pass's note of a lower word.
    pub fn note_lower(&self, pass: u32, k: u32, s: u32) -> u64
        requires pass { pass < length self.now.passes }
        requires layer { k ≤ self.now.sizes.layers }
        requires state { s < self.now.sizes.states }
        ensures { result ≡ lower_at self.now.sizes (pass_at self.now pass).notes k s }
    {
        self.note(pass, self.layout.lower_place(k, s))
    }

    /// A pass's note of an upper word.
    pub fn note_upper(&self, pass: u32, k: u32, s: u32) -> u64
        requires pass { pass < length self.now.passes }
        requires layer { k ≤ self.now.sizes.layers }
        requires state { s < self.now.sizes.states }
        ensures { result ≡ upper_at self.now.sizes (pass_at self.now pass).notes k s }
    {
        self.note(pass, self.layout.upper_place(k, s))
    }

    /// Whether a pass notes a seal as set.
    pub fn note_seal(&self, pass: u32, k: u32, b: u32) -> bool
        requires pass { pass < length self.now.passes }
        requires layer { k ≤ self.now.sizes.layers }
        requires block { b < blocks self.now.sizes }
        ensures { result ≡ (seal_at self.now.sizes (pass_at self.now pass).notes k b == 1) }
    {
        self.note(pass, self.layout.seal_place(k, b)) == 1
    }

    /// Whether a pass notes the stop word as set.
    pub fn note_stop(&self, pass: u32) -> bool
        requires pass { pass < length self.now.passes }
        ensures { result ≡ (stop_at self.now.sizes (pass_at self.now pass).notes == 1) }
    {
        self.note(pass, self.layout.stop_place()) == 1
    }

    // A pass's note of the word at a place.
    pub(crate) fn note(&self, pass: u32, place: usize) -> u64
        requires pass { pass < length self.now.passes }
        requires place { place < word_count self.now.sizes }
        ensures { result ≡ slice_index (pass_at self.now pass).notes place }
    {
        let known = &self.passes[pass as usize];
        known.notes[place]
    }
}

#[cfg(test)]
mod tests;
