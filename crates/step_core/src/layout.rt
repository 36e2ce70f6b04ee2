ghost use Rattle.std.specs.Prelude.{◌≡◌, ◌<◌, ◌≤◌};
ghost use Rattle.step_core.specs.BoardRule.{better_of};
ghost use Rattle.step_core.specs.Limits.{sizes_of};
ghost use Rattle.step_core.specs.Places.{blocks, lower_place, upper_place, seal_place, ticket_place, stop_place, word_count, falls};
ghost use Rattle.step_core.specs.SoundPlan.{IsSoundPlan};

use crate::blocks::BLOCK_STATES;
use crate::plan::Plan;
use std::marker::Model;

/// Where each word of a board stands: word 0, which is always 0, then the lower words layer by
/// layer, the upper words layer by layer, a seal for each layer and block, the word from which
/// tickets are drawn, and the stop word.
#[derive(Clone, Copy, Debug)]
pub struct Layout {
    layers: u32,
    states: u32,
}

impl Model for Layout {
    ghost use Rattle.std.specs.Prelude.{◌≤◌};
    ghost use Rattle.step_core.specs.Places.{Sizes};

    ghost Value = { Sizes };

    ghost view = { λ l. record { layers = l.layers; states = l.states } };

    ghost invariant = { λ l. (l.layers ≤ 16384) × (l.states ≤ 65536) };

    ghost inverse = { λ z. record { layers = z.layers; states = z.states } };
}

impl Layout {
    /// The layout of a plan's board.
    #[inline]
    pub fn of(plan: &Plan) -> Layout
        requires sound { IsSoundPlan plan.now }
        ensures { result ≡ sizes_of plan.now }
    {
        Layout {
            layers: plan.layers,
            states: plan.frame.rows.len() as u32,
        }
    }

    /// The number of the last layer.
    #[inline]
    pub fn layers(self) -> u32
        ensures { result ≡ self.layers }
    {
        self.layers
    }

    /// The number of states.
    #[inline]
    pub fn states(self) -> u32
        ensures { result ≡ self.states }
    {
        self.states
    }

    /// The number of blocks of a layer.
    #[inline]
    pub fn blocks(self) -> u32
        ensures { result ≡ blocks self }
    {
        (self.states + (BLOCK_STATES - 1)) / BLOCK_STATES
    }

    /// The number of words.
    #[inline]
    pub fn word_count(self) -> usize
        ensures { result ≡ word_count self }
    {
        let layers = self.layers as usize + 1;
        1 + (2 * (layers * self.states as usize) + (layers * self.blocks() as usize + 2))
    }

    /// The place of a lower word.
    #[inline]
    pub fn lower_place(self, k: u32, s: u32) -> usize
        requires layer { k ≤ self.layers }
        requires state { s < self.states }
        ensures place { result ≡ lower_place self k s }
        ensures inside { result < word_count self }
    {
        1 + (k as usize * self.states as usize + s as usize)
    }

    /// The place of an upper word.
    #[inline]
    pub fn upper_place(self, k: u32, s: u32) -> usize
        requires layer { k ≤ self.layers }
        requires state { s < self.states }
        ensures place { result ≡ upper_place self k s }
        ensures inside { result < word_count self }
    {
        let states = self.states as usize;
        1 + ((self.layers as usize + 1) * states + (k as usize * states + s as usize))
    }

    /// The place of a seal.
    #[inline]
    pub fn seal_place(self, k: u32, b: u32) -> usize
        requires layer { k ≤ self.layers }
        requires block { b < blocks self }
        ensures place { result ≡ seal_place self k b }
        ensures inside { result < word_count self }
    {
        let cells = (self.layers as usize + 1) * self.states as usize;
        1 + (2 * cells + (k as usize * self.blocks() as usize + b as usize))
    }

    /// The place of the word from which tickets are drawn.
    #[inline]
    pub fn ticket_place(self) -> usize
        ensures place { result ≡ ticket_place self }
        ensures inside { result < word_count self }
    {
        self.word_count() - 2
    }

    /// The place of the stop word.
    #[inline]
    pub fn stop_place(self) -> usize
        ensures place { result ≡ stop_place self }
        ensures inside { result < word_count self }
    {
        self.word_count() - 1
    }

    /// The better of two values of the word at a place: the smaller one of an upper word, and the
    /// greater one of each other word.
    #[inline]
    pub fn better(self, place: usize, a: u64, b: u64) -> u64
        ensures { result ≡ better_of (falls self place) a b }
    {
        let cells = (self.layers as usize + 1) * self.states as usize;
        if cells < place && place < 1 + 2 * cells {
            a.min(b)
        } else {
            a.max(b)
        }
    }
}
