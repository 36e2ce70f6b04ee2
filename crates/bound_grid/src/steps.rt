// The steps on a board.

ghost use Rattle.std.specs.Prelude.{◌≡◌, ℕ, ◌+◌, ◌/◌, ◌<◌, ◌≤◌, min, max, [], ◌∷◌, ◌++◌, All, length, slice_set, true, if◌then◌else◌};
ghost use Rattle.step_core.specs.BoardRule.{NoWorse, better_notes};
ghost use Rattle.step_core.specs.Limits.{sizes_of};
ghost use Rattle.step_core.specs.Places.{blocks, lower_place, upper_place, seal_place, ticket_place, stop_place, block_of};
ghost use Rattle.step_core.specs.PlanTables.{plan_low, plan_high};
ghost use Rattle.bound_grid.specs.Passes.{IsPassOf, KnowsAtLeast, KnowsMore, notes_of, lower_note, upper_note, seal_note};
ghost use Rattle.bound_grid.specs.Passes.{tickets_of, draws_of, stop_note};

use crate::board::{Board, Pass};
use crate::rule::{Copies, Cuts, Draws, Loads, Raises, Seals};
use round_out::ONE;
use step_core::{MOST_DRAWS, Plan, SPLIT_DRAWS};

impl Board {
    /// The plan whose words these are.
    pub fn plan(&self) -> &Plan
        ensures { result.now ≡ self.now.plan }
    {
        &self.plan
    }

    /// The lower word of a state in a layer, as it is now. The pass notes it.
    #[inline]
    pub fn load_lower(&self, pass: &mut Pass, k: u32, s: u32) -> u64
        requires pass { IsPassOf self.now pass.old }
        requires layer { k ≤ self.now.plan.layers }
        requires state { s < length self.now.plan.frame.rows }
        ensures knows { KnowsMore self.now pass.old pass.new }
        ensures notes { notes_of pass.new ≡ slice_set (notes_of pass.old) (lower_place (sizes_of self.now.plan) k s) result }
        ensures better { lower_note self.now pass.old k s ≤ result }
        ensures limit { result ≤ plan_low self.now.plan k s }
        ensures sealed { seal_note self.now pass.old k (block_of s) ≡ 1 → result ≡ plan_low self.now.plan k s }
    {
        let place = self.layout.lower_place(k, s);
        self.table.shared.load::<Loads>(&mut pass.seat, place)
    }

    /// The upper word of a state in a layer, as it is now. The pass notes it.
    #[inline]
    pub fn load_upper(&self, pass: &mut Pass, k: u32, s: u32) -> u64
        requires pass { IsPassOf self.now pass.old }
        requires layer { k ≤ self.now.plan.layers }
        requires state { s < length self.now.plan.frame.rows }
        ensures knows { KnowsMore self.now pass.old pass.new }
        ensures notes { notes_of pass.new ≡ slice_set (notes_of pass.old) (upper_place (sizes_of self.now.plan) k s) result }
        ensures better { result ≤ upper_note self.now pass.old k s }
        ensures one { result ≤ ONE }
        ensures limit { plan_high self.now.plan k s ≤ result }
        ensures sealed { seal_note self.now pass.old k (block_of s) ≡ 1 → result ≡ plan_high self.now.plan k s }
    {
        let place = self.layout.upper_place(k, s);
        self.table.shared.load::<Loads>(&mut pass.seat, place)
    }

    /// Makes a lower word the greater of itself and `to`, and answers what it was. The pass notes
    /// what it is then.
    #[inline]
    pub fn raise(&self, pass: &mut Pass, k: u32, s: u32, to: u64) -> u64
        requires pass { IsPassOf self.now pass.old }
        requires layer { k ≤ self.now.plan.layers }
        requires state { s < length self.now.plan.frame.rows }
        requires limit { to ≤ plan_low self.now.plan k s }
        ensures knows { KnowsMore self.now pass.old pass.new }
        ensures notes { notes_of pass.new ≡ slice_set (notes_of pass.old) (lower_place (sizes_of self.now.plan) k s) (max result to) }
        ensures better { lower_note self.now pass.old k s ≤ result }
        ensures limit { result ≤ plan_low self.now.plan k s }
    {
        let place = self.layout.lower_place(k, s);
        self.table
            .shared
            .fetch_max::<Raises>(&mut pass.seat, place, to)
    }

    /// Makes an upper word the smaller of itself and `to`, and answers what it was. The pass notes
    /// what it is then.
    #[inline]
    pub fn cut(&self, pass: &mut Pass, k: u32, s: u32, to: u64) -> u64
        requires pass { IsPassOf self.now pass.old }
        requires layer { k ≤ self.now.plan.layers }
        requires state { s < length self.now.plan.frame.rows }
        requires limit { plan_high self.now.plan k s ≤ to }
        ensures knows { KnowsMore self.now pass.old pass.new }
        ensures notes { notes_of pass.new ≡ slice_set (notes_of pass.old) (upper_place (sizes_of self.now.plan) k s) (min result to) }
        ensures better { result ≤ upper_note self.now pass.old k s }
        ensures one { result ≤ ONE }
        ensures limit { plan_high self.now.plan k s ≤ result }
    {
        let place = self.layout.upper_place(k, s);
        self.table
            .shared
            .fetch_min::<Cuts>(&mut pass.seat, place, to)
    }

    /// Whether a block's seal is set: then all words of the block are final. The pass notes it.
    #[inline]
    pub fn sealed(&self, pass: &mut Pass, k: u32, b: u32) -> bool
        requires pass { IsPassOf self.now pass.old }
        requires layer { k ≤ self.now.plan.layers }
        requires block { b < blocks (sizes_of self.now.plan) }
        ensures knows { KnowsMore self.now pass.old pass.new }
        ensures notes { notes_of pass.new
            ≡ slice_set (notes_of pass.old) (seal_place (sizes_of self.now.plan) k b) (if result then 1 else 0) }
        ensures noted { seal_note self.now pass.new k b ≡ (if result then 1 else 0) }
        ensures kept { seal_note self.now pass.old k b ≡ 1 → result ≡ true }
        ensures layer_zero { k ≡ 0 → result ≡ true }
    {
        let place = self.layout.seal_place(k, b);
        self.table.shared.load::<Loads>(&mut pass.seat, place) > 0
    }

    /// Sets a block's seal: all words of the block are final. The pass notes it.
    #[inline]
    pub fn seal(&self, pass: &mut Pass, k: u32, b: u32)
        requires pass { IsPassOf self.now pass.old }
        requires layer { k ≤ self.now.plan.layers }
        requires block { b < blocks (sizes_of self.now.plan) }
        requires lower { (s : ℕ) → s < length self.now.plan.frame.rows → block_of s ≡ b
            → lower_note self.now pass.old k s ≡ plan_low self.now.plan k s }
        requires upper { (s : ℕ) → s < length self.now.plan.frame.rows → block_of s ≡ b
            → upper_note self.now pass.old k s ≡ plan_high self.now.plan k s }
        ensures knows { KnowsMore self.now pass.old pass.new }
        ensures notes { notes_of pass.new ≡ slice_set (notes_of pass.old) (seal_place (sizes_of self.now.plan) k b) 1 }
        ensures noted { seal_note self.now pass.new k b ≡ 1 }
    {
        let place = self.layout.seal_place(k, b);
        self.table
            .shared
            .fetch_or::<Seals>(&mut pass.seat, place, 1);
    }

    /// Draws the next ticket, for one of the pass's draws: whoever draws next gets the one after it.
    /// No two passes get the same.
    #[inline]
    pub fn draw(&self, pass: &mut Pass) -> u64
        requires pass { IsPassOf self.now pass.old }
        requires draw { 0 < draws_of pass.old }
        ensures knows { KnowsAtLeast self.now pass.old pass.new }
        ensures notes { notes_of pass.new ≡ slice_set (notes_of pass.old) (ticket_place (sizes_of self.now.plan)) (result + 1) }
        ensures tickets { tickets_of pass.new ≡ tickets_of pass.old ++ result ∷ [] }
        ensures draws { draws_of pass.new + 1 ≡ draws_of pass.old }
        ensures stop { stop_note self.now pass.new ≡ stop_note self.now pass.old }
        ensures rises { All (λ t. t < result) (tickets_of pass.old) }
        ensures room { result < MOST_DRAWS }
    {
        let place = self.layout.ticket_place();
        self.table
            .shared
            .fetch_add::<Draws>(&mut pass.seat, place, 1)
    }

    /// Tells all to stop. The pass notes it.
    #[inline]
    pub fn stop(&self, pass: &mut Pass)
        requires pass { IsPassOf self.now pass.old }
        ensures knows { KnowsAtLeast self.now pass.old pass.new }
        ensures notes { notes_of pass.new ≡ slice_set (notes_of pass.old) (stop_place (sizes_of self.now.plan)) 1 }
        ensures tickets { tickets_of pass.new ≡ tickets_of pass.old }
        ensures draws { draws_of pass.new ≡ draws_of pass.old }
        ensures noted { stop_note self.now pass.new ≡ 1 }
    {
        let place = self.layout.stop_place();
        self.table
            .shared
            .fetch_or::<Seals>(&mut pass.seat, place, 1);
    }

    /// Whether some pass told all to stop. The pass notes it.
    #[inline]
    pub fn stopped(&self, pass: &mut Pass) -> bool
        requires pass { IsPassOf self.now pass.old }
        ensures knows { KnowsAtLeast self.now pass.old pass.new }
        ensures notes { notes_of pass.new
            ≡ slice_set (notes_of pass.old) (stop_place (sizes_of self.now.plan)) (if result then 1 else 0) }
        ensures tickets { tickets_of pass.new ≡ tickets_of pass.old }
        ensures draws { draws_of pass.new ≡ draws_of pass.old }
        ensures noted { stop_note self.now pass.new ≡ (if result then 1 else 0) }
        ensures kept { stop_note self.now pass.old ≡ 1 → result ≡ true }
    {
        let place = self.layout.stop_place();
        let found = self.table.shared.load::<Loads>(&mut pass.seat, place);
        found > 0
    }

    /// A second pass, which knows the same. It has no tickets, and gets some of the pass's draws: all
    /// of them, where these are few.
    pub fn split(&self, pass: &mut Pass) -> Pass
        requires pass { IsPassOf self.now pass.old }
        ensures pass { IsPassOf self.now pass.new }
        ensures kept { notes_of pass.new ≡ notes_of pass.old }
        ensures tickets { tickets_of pass.new ≡ tickets_of pass.old }
        ensures draws { draws_of pass.new + draws_of result ≡ draws_of pass.old }
        ensures second { IsPassOf self.now result }
        ensures notes { notes_of result ≡ notes_of pass.old }
        ensures no_tickets { tickets_of result ≡ [] }
        ensures given { draws_of result ≡ min SPLIT_DRAWS (draws_of pass.old) }
    {
        Pass {
            seat: self.table.shared.split_seat::<Copies>(&mut pass.seat),
        }
    }

    /// Ends the other pass. This one knows the better of both of each word, and gets the other's
    /// tickets and draws.
    pub fn meet(&self, pass: &mut Pass, other: Pass)
        requires pass { IsPassOf self.now pass.old }
        requires other { IsPassOf self.now other }
        ensures knows { KnowsAtLeast self.now pass.old pass.new }
        ensures notes { notes_of pass.new ≡ better_notes (sizes_of self.now.plan) (notes_of pass.old) (notes_of other) }
        ensures tickets { tickets_of pass.new ≡ tickets_of pass.old ++ tickets_of other }
        ensures draws { draws_of pass.new ≡ draws_of pass.old + draws_of other }
        ensures stop { stop_note self.now pass.new ≡ max (stop_note self.now pass.old) (stop_note self.now other) }
        ensures other { NoWorse (sizes_of self.now.plan) (notes_of other) (notes_of pass.new) }
    {
        let Pass { seat } = other;
        self.table.shared.join_seat::<Copies>(&mut pass.seat, seat);
    }
}
