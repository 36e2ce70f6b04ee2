// The events of the pure machine. Each is a function of its own, and says which machine it gives.

ghost use Rattle.std.specs.Prelude.{◌≡◌, ◌+◌, ◌-◌, ◌*◌, ◌^◌, ◌<◌, ◌≤◌, ◌&&◌, ◌==◌, IfOk, IfErr, IsTrue, length, min, slice_index, take, drop, if◌then◌else◌};
ghost use Rattle.step_core.specs.CoreLists.{pass_at, lower_at, upper_at};
ghost use Rattle.step_core.specs.Events.{plan_row_low, plan_row_high, sees_cell, sees_block, is_done, block_done, can_meet, can_draw};
ghost use Rattle.step_core.specs.Events.{noted, turned, split, met, event_gives};
ghost use Rattle.step_core.specs.EventRoom.{HasRoom, NeedsMemory};
ghost use Rattle.step_core.specs.Good.{Good};
ghost use Rattle.step_core.specs.Limits.{sizes_of};
ghost use Rattle.step_core.specs.MeetSteps.{ticket_got, pass_added, draws_given, draws_joined, word_met, without};
ghost use Rattle.step_core.specs.Places.{blocks, word_count};
ghost use Rattle.step_core.specs.PlanTables.{AreTablesOf, plan_low, plan_high};
ghost use Rattle.step_core.specs.SoundPlan.{IsSoundPlan};
ghost use Rattle.step_core.specs.declared.event.Event.TheVariants.{LoadLower, LoadUpper, Raise, Cut, SeeSeal, Seal, Split, Meet, Draw, Stop, SeeStop};

use crate::blocks::BLOCK_STATES;
use crate::draws::SPLIT_DRAWS;
use crate::event::Event;
use crate::layout::Layout;
use crate::machine::Core;
use crate::pass_notes::PassNotes;
use crate::plan::Plan;
use crate::row_value::{high_word, low_word};
use crate::tables::Tables;
use round_out::Divisor;
use std::alloc::AllocError;

impl Core {
    // Whether there is a live pass with this number.
    fn is_live(&self, pass: u32) -> bool
        ensures { result ≡ (pass_at self.now pass).live }
    {
        match self.passes.get(pass as usize) {
            Some(known) => known.live,
            None => false,
        }
    }

    // Whether the pass is live, and the layer and the state are in range.
    fn sees_cell(&self, plan: &Plan, pass: u32, k: u32, s: u32) -> bool
        ensures { result ≡ sees_cell plan.now self.now pass k s }
    {
        self.is_live(pass) && (k <= plan.layers && (s as usize) < plan.frame.rows.len())
    }

    // Whether the pass is live, and the layer and the block are in range.
    fn sees_block(&self, plan: &Plan, pass: u32, k: u32, b: u32) -> bool
        requires sound { IsSoundPlan plan.now }
        ensures { result ≡ sees_block plan.now self.now pass k b }
    {
        self.is_live(pass) && (k <= plan.layers && b < Layout::of(plan).blocks())
    }

    // The pass notes the word at a place.
    fn note_word(&mut self, pass: u32, place: usize)
        requires pass { pass < length self.old.passes }
        requires place { place < word_count self.old.sizes }
        ensures { self.new ≡ noted self.old pass place (slice_index self.old.words place) }
    {
        let word = self.words[place];
        let known = &mut self.passes[pass as usize];
        known.notes[place] = word;
    }

    // The word at a place becomes `to`, and the pass notes it.
    fn turn(&mut self, pass: u32, place: usize, to: u64)
        requires pass { pass < length self.old.passes }
        requires place { place < word_count self.old.sizes }
        ensures { self.new ≡ turned self.old pass place to }
    {
        self.words[place] = to;
        let known = &mut self.passes[pass as usize];
        known.notes[place] = to;
    }

    fn load_lower(&mut self, plan: &Plan, pass: u32, k: u32, s: u32)
        requires sound { IsSoundPlan plan.now }
        requires good { Good plan.now self.old }
        ensures { self.new ≡ event_gives plan.now self.old (LoadLower pass k s) }
    {
        if self.sees_cell(plan, pass, k, s) {
            self.note_word(pass, Layout::of(plan).lower_place(k, s));
        }
    }

    fn load_upper(&mut self, plan: &Plan, pass: u32, k: u32, s: u32)
        requires sound { IsSoundPlan plan.now }
        requires good { Good plan.now self.old }
        ensures { self.new ≡ event_gives plan.now self.old (LoadUpper pass k s) }
    {
        if self.sees_cell(plan, pass, k, s) {
            self.note_word(pass, Layout::of(plan).upper_place(k, s));
        }
    }

    fn see_seal(&mut self, plan: &Plan, pass: u32, k: u32, b: u32)
        requires sound { IsSoundPlan plan.now }
        requires good { Good plan.now self.old }
        ensures { self.new ≡ event_gives plan.now self.old (SeeSeal pass k b) }
    {
        if self.sees_block(plan, pass, k, b) {
            self.note_word(pass, Layout::of(plan).seal_place(k, b));
        }
    }

    fn raise(&mut self, plan: &Plan, pass: u32, k: u32, s: u32)
        requires sound { IsSoundPlan plan.now }
        requires good { Good plan.now self.old }
        ensures { self.new ≡ event_gives plan.now self.old (Raise pass k s) }
    {
        if self.sees_cell(plan, pass, k, s) && k > 0 {
            let place = Layout::of(plan).lower_place(k, s);
            let to = self.row_low(plan, pass, k - 1, s);
            let found = self.words[place];
            self.turn(pass, place, found.max(to));
        }
    }

    fn cut(&mut self, plan: &Plan, pass: u32, k: u32, s: u32)
        requires sound { IsSoundPlan plan.now }
        requires good { Good plan.now self.old }
        ensures { self.new ≡ event_gives plan.now self.old (Cut pass k s) }
    {
        if self.sees_cell(plan, pass, k, s) && k > 0 {
            let place = Layout::of(plan).upper_place(k, s);
            let to = self.row_high(plan, pass, k - 1, s);
            let found = self.words[place];
            self.turn(pass, place, found.min(to));
        }
    }

    // The row value of the pass's lower notes of a layer.
    fn row_low(&self, plan: &Plan, pass: u32, k: u32, s: u32) -> u64
        requires sound { IsSoundPlan plan.now }
        requires good { Good plan.now self.now }
        requires live { IsTrue (pass_at self.now pass).live }
        requires layer { k ≤ plan.now.layers }
        requires state { s < length plan.now.frame.rows }
        ensures { result ≡ plan_row_low plan.now (lower_at (sizes_of plan.now) (pass_at self.now pass).notes k) s }
    {
        let frame = &plan.frame;
        let sets = &frame.sets;
        let start = Layout::of(plan).lower_place(k, 0);
        let words = self.layer_of(pass, start, frame.rows.len());
        let row = &frame.rows[s as usize];
        let is_goal = sets.goal_must[s as usize];
        low_word(
            row,
            &Divisor::new(row.den),
            is_goal,
            sets.live_must[s as usize],
            words,
        )
    }

    // The row value of the pass's upper notes of a layer.
    fn row_high(&self, plan: &Plan, pass: u32, k: u32, s: u32) -> u64
        requires sound { IsSoundPlan plan.now }
        requires good { Good plan.now self.now }
        requires live { IsTrue (pass_at self.now pass).live }
        requires layer { k ≤ plan.now.layers }
        requires state { s < length plan.now.frame.rows }
        ensures { result ≡ plan_row_high plan.now (upper_at (sizes_of plan.now) (pass_at self.now pass).notes k) s }
    {
        let frame = &plan.frame;
        let sets = &frame.sets;
        let start = Layout::of(plan).upper_place(k, 0);
        let words = self.layer_of(pass, start, frame.rows.len());
        let row = &frame.rows[s as usize];
        let is_goal = sets.goal_may[s as usize];
        high_word(
            row,
            &Divisor::new(row.den),
            is_goal,
            sets.live_may[s as usize],
            words,
        )
    }

    // The pass's notes of the words from a place on.
    fn layer_of(&self, pass: u32, start: usize, states: usize) -> &[u64]
        requires pass { pass < length self.now.passes }
        requires inside { start + states ≤ word_count self.now.sizes }
        ensures { result.now ≡ take states (drop start (pass_at self.now pass).notes) }
    {
        let known = &self.passes[pass as usize];
        &known.notes[start..start + states]
    }

    // Whether the pass's notes of a state equal the tables.
    fn is_done(&self, plan: &Plan, tables: &Tables, pass: u32, k: u32, s: u32) -> bool
        requires good { Good plan.now self.now }
        requires tables { AreTablesOf plan.now tables.now }
        requires pass { pass < length self.now.passes }
        requires layer { k ≤ plan.now.layers }
        requires state { s < length plan.now.frame.rows }
        ensures { result ≡ is_done plan.now (pass_at self.now pass).notes k s }
    {
        let low = &tables.low[k as usize];
        let high = &tables.high[k as usize];
        self.note_lower(pass, k, s) == low[s as usize]
            && self.note_upper(pass, k, s) == high[s as usize]
    }

    // Whether the pass's notes of all states of a block equal the tables.
    fn block_done(&self, plan: &Plan, tables: &Tables, pass: u32, k: u32, b: u32) -> bool
        requires sound { IsSoundPlan plan.now }
        requires good { Good plan.now self.now }
        requires tables { AreTablesOf plan.now tables.now }
        requires pass { pass < length self.now.passes }
        requires layer { k ≤ plan.now.layers }
        requires block { b < blocks (sizes_of plan.now) }
        ensures { result ≡ block_done plan.now (pass_at self.now pass).notes k b }
    {
        let count = (Layout::of(plan).states() - BLOCK_STATES * b).min(BLOCK_STATES);
        for r in 0..count {
            if !self.is_done(plan, tables, pass, k, BLOCK_STATES * b + r) {
                return false;
            }
        }
        true
    }

    fn seal_block(&mut self, plan: &Plan, tables: &Tables, pass: u32, k: u32, b: u32)
        requires sound { IsSoundPlan plan.now }
        requires good { Good plan.now self.old }
        requires tables { AreTablesOf plan.now tables.now }
        ensures { self.new ≡ event_gives plan.now self.old (Seal pass k b) }
    {
        if self.sees_block(plan, pass, k, b)
            && (k > 0 && self.block_done(plan, tables, pass, k, b))
        {
            self.turn(pass, Layout::of(plan).seal_place(k, b), 1);
        }
    }

    fn split_pass(&mut self, pass: u32) -> Result<(), AllocError>
        requires room { length self.old.passes < 4294967295 }
        ensures given { IfOk result (λ _. self.new ≡ (if (pass_at self.old pass).live then split self.old pass else self.old)) }
        ensures kept { IfErr result (λ _. self.new ≡ self.old) }
    {
        if !self.is_live(pass) {
            return Ok(());
        }
        let draws = SPLIT_DRAWS.min(self.draws(pass));
        self.add_pass(pass, draws)?;
        self.give(pass, draws);
        Ok(())
    }

    // A live pass is added that knows the same, has no tickets, and may draw so often.
    fn add_pass(&mut self, pass: u32, draws: u64) -> Result<(), AllocError>
        requires pass { pass < length self.old.passes }
        requires room { length self.old.passes < 4294967295 }
        ensures given { IfOk result (λ _. self.new ≡ pass_added self.old pass draws) }
        ensures kept { IfErr result (λ _. self.new ≡ self.old) }
    {
        let known = &self.passes[pass as usize];
        let notes = Vec::from_slice(*self.words.allocator(), &known.notes)?;
        let tickets = Vec::new(*self.words.allocator());
        self.passes.push(PassNotes {
            live: true,
            notes,
            tickets,
            draws,
        })?;
        Ok(())
    }

    // The pass gives some draws away.
    fn give(&mut self, pass: u32, draws: u64)
        requires pass { pass < length self.old.passes }
        requires draws { draws ≤ (pass_at self.old pass).draws }
        ensures { self.new ≡ draws_given self.old pass draws }
    {
        let known = &mut self.passes[pass as usize];
        known.draws -= draws;
    }

    // The kept pass gets the tickets and the draws of the other.
    fn join_draws(&mut self, kept: u32, other: u32) -> Result<(), AllocError>
        requires kept { kept < length self.old.passes }
        requires other { other < length self.old.passes }
        requires room { (pass_at self.old kept).draws + (pass_at self.old other).draws < 2 ^ 64 }
        ensures given { IfOk result (λ _. self.new ≡ draws_joined self.old kept other) }
        ensures kept { IfErr result (λ _. self.new ≡ self.old) }
    {
        let theirs = &self.passes[other as usize];
        let mine = &self.passes[kept as usize];
        let draws = mine.draws + theirs.draws;
        let mut tickets = Vec::from_slice(*self.words.allocator(), &mine.tickets)?;
        tickets.extend_from_slice(&theirs.tickets)?;
        let known = &mut self.passes[kept as usize];
        known.tickets = tickets;
        known.draws = draws;
        Ok(())
    }

    // The kept pass notes the better of both notes of the word at a place.
    fn meet_word(&mut self, kept: u32, other: u32, place: usize)
        requires kept { kept < length self.old.passes }
        requires other { other < length self.old.passes }
        requires place { place < word_count self.old.sizes }
        ensures { self.new ≡ word_met self.old kept other place }
    {
        let theirs = self.note(other, place);
        let mine = self.note(kept, place);
        let better = self.layout.better(place, mine, theirs);
        let known = &mut self.passes[kept as usize];
        known.notes[place] = better;
    }

    // The pass ends.
    fn end(&mut self, pass: u32)
        requires pass { pass < length self.old.passes }
        ensures { self.new ≡ without self.old pass }
    {
        let known = &mut self.passes[pass as usize];
        known.live = false;
    }

    // Whether both passes are live, and they are two.
    fn can_meet(&self, kept: u32, other: u32) -> bool
        ensures { result ≡ can_meet self.now kept other }
    {
        self.is_live(kept) && (self.is_live(other) && kept != other)
    }

    fn meet(&mut self, plan: &Plan, kept: u32, other: u32) -> Result<(), AllocError>
        requires sound { IsSoundPlan plan.now }
        requires good { Good plan.now self.old }
        ensures given { IfOk result (λ _. self.new ≡ event_gives plan.now self.old (Meet kept other)) }
        ensures kept { IfErr result (λ _. self.new ≡ self.old) }
    {
        if self.can_meet(kept, other) {
            self.join_draws(kept, other)?;
            for place in 0..Layout::of(plan).word_count() {
                self.meet_word(kept, other, place);
            }
            self.end(other);
        }
        Ok(())
    }

    // Whether the pass is live, and has a draw.
    fn can_draw(&self, pass: u32) -> bool
        ensures { result ≡ can_draw self.now pass }
    {
        match self.passes.get(pass as usize) {
            Some(known) => known.live && known.draws > 0,
            None => false,
        }
    }

    // The pass gets a ticket, for one of its draws.
    fn take_ticket(&mut self, pass: u32, ticket: u64) -> Result<(), AllocError>
        requires pass { pass < length self.old.passes }
        requires draw { 0 < (pass_at self.old pass).draws }
        ensures given { IfOk result (λ _. self.new ≡ ticket_got self.old pass ticket) }
        ensures kept { IfErr result (λ _. self.new ≡ self.old) }
    {
        let known = &mut self.passes[pass as usize];
        known.tickets.push(ticket)?;
        known.draws -= 1;
        Ok(())
    }

    fn draw(&mut self, plan: &Plan, pass: u32) -> Result<(), AllocError>
        requires sound { IsSoundPlan plan.now }
        requires good { Good plan.now self.old }
        ensures given { IfOk result (λ _. self.new ≡ event_gives plan.now self.old (Draw pass)) }
        ensures kept { IfErr result (λ _. self.new ≡ self.old) }
    {
        if self.can_draw(pass) {
            let ticket = self.ticket();
            self.take_ticket(pass, ticket)?;
            self.turn(pass, Layout::of(plan).ticket_place(), ticket + 1);
        }
        Ok(())
    }

    fn stop(&mut self, plan: &Plan, pass: u32)
        requires sound { IsSoundPlan plan.now }
        requires good { Good plan.now self.old }
        ensures { self.new ≡ event_gives plan.now self.old (Stop pass) }
    {
        if self.is_live(pass) {
            self.turn(pass, Layout::of(plan).stop_place(), 1);
        }
    }

    fn see_stop(&mut self, plan: &Plan, pass: u32)
        requires sound { IsSoundPlan plan.now }
        requires good { Good plan.now self.old }
        ensures { self.new ≡ event_gives plan.now self.old (SeeStop pass) }
    {
        if self.is_live(pass) {
            self.note_word(pass, Layout::of(plan).stop_place());
        }
    }

    /// Does one event.
    ///
    /// An event changes nothing where a pass that it names isn't live, its layer, state or block is
    /// out of range, it would change layer 0, a seal's block isn't done, or a pass meets itself.
    /// So does a draw of a pass that has none left. The only error is want of memory, for a split, a
    /// meeting or a draw; the machine is then as it was.
    pub fn apply(&mut self, plan: &Plan, tables: &Tables, event: Event) -> Result<(), AllocError>
        requires sound { IsSoundPlan plan.now }
        requires good { Good plan.now self.old }
        requires tables { AreTablesOf plan.now tables.now }
        requires room { HasRoom self.old event }
        ensures given { IfOk result (λ _. self.new ≡ event_gives plan.now self.old event) }
        ensures kept { IfErr result (λ _. self.new ≡ self.old) }
        ensures needs_memory { IfErr result (λ _. NeedsMemory event) }
        ensures good { Good plan.now self.new }
    {
        match event {
            Event::LoadLower(pass, k, s) => self.load_lower(plan, pass, k, s),
            Event::LoadUpper(pass, k, s) => self.load_upper(plan, pass, k, s),
            Event::Raise(pass, k, s) => self.raise(plan, pass, k, s),
            Event::Cut(pass, k, s) => self.cut(plan, pass, k, s),
            Event::SeeSeal(pass, k, b) => self.see_seal(plan, pass, k, b),
            Event::Seal(pass, k, b) => self.seal_block(plan, tables, pass, k, b),
            Event::Split(pass) => return self.split_pass(pass),
            Event::Meet(kept, other) => return self.meet(plan, kept, other),
            Event::Draw(pass) => return self.draw(plan, pass),
            Event::Stop(pass) => self.stop(plan, pass),
            Event::SeeStop(pass) => self.see_stop(plan, pass),
        }
        Ok(())
    }
}
