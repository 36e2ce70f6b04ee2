ghost use Rattle.std.specs.Prelude.{◌≡◌, ◌^◌, ◌<◌, ◌≤◌, All, IfOk, OnOk, length};
ghost use Rattle.step_core.specs.SoundFrame.{IsSoundRow, AreSoundSets};
ghost use Rattle.std.specs.List.{sum_by};
ghost use Rattle.flat_rows.specs.StateRows.{AreStateRows, AddsStateRow, state_row_at};

use crate::flattening::needs_row;
use crate::full_divisor::FullDivisor;
use crate::laid_row::LaidRow;
use crate::scale::{push_scaled, scaled_den, shift_of};
use round_out::Entry;
use std::alloc::{AllocError, Global};
use std::marker::Model;
use step_core::{Row, Sets};

/// One state's row, made ready: its numbers are multiplied so that its divisor has 63 bits.
#[derive(Clone, Copy, Debug)]
pub struct StateRow<'a> {
    /// Whether the state's lower word is the quotient of the row.
    pub low: bool,
    /// Whether the state's upper word is.
    pub high: bool,
    /// What the products are divided by.
    pub divisor: &'a FullDivisor,
    /// The targets, each with its number.
    pub entries: &'a [Entry],
}

/// The rows of all states in their order, for whoever steps from state to state: all entries lie
/// side by side.
///
/// `FlatRows` are for whole layers, and have the rows by their lengths. Contracts see the list of
/// rows.
#[derive(Debug, Drop)]
pub struct StateRows {
    rows: Vec<LaidRow>,
    entries: Vec<Entry>,
}

impl Model for StateRows {
    ghost use Rattle.std.specs.Prelude.{List, All, map, length};
    ghost use Rattle.flat_rows.specs.Laid.{laid_row, LiesInside};
    ghost use Rattle.flat_rows.specs.StateRows.{StateRowLists};

    ghost Value = { List StateRowLists };

    ghost view = { λ l. map (laid_row l.entries.items) l.rows.items };

    ghost invariant = { λ l. All (LiesInside (length l.entries.items)) l.rows.items };
}

impl StateRows {
    /// The rows of all states, made ready. `reach` is true at the states that can reach the goal.
    ///
    /// The only error is want of memory.
    pub fn new(
        alloc: Global,
        rows: &[Row],
        sets: &Sets,
        reach: &[bool],
    ) -> Result<StateRows, AllocError>
        requires rows { All (IsSoundRow (length rows.now)) rows.now }
        requires sets { AreSoundSets (length rows.now) sets.now }
        requires reach { length reach.now ≡ length rows.now }
        ensures { IfOk result (AreStateRows rows.now sets.now reach.now) }
    {
        let mut all = StateRows {
            rows: Vec::with_capacity(alloc, rows.len())?,
            entries: Vec::new(alloc),
        };
        for state in 0..rows.len() {
            let row = &rows[state];
            let (low, high) = needs_row(sets, reach, state);
            all.push(row, low, high)?;
        }
        Ok(all)
    }

    // Adds the row of the next state.
    fn push(&mut self, row: &Row, low: bool, high: bool) -> Result<(), AllocError>
        requires whole { sum_by (λ e. e.num) row.now.entries ≡ row.now.den }
        requires positive { 0 < row.now.den }
        requires fits { row.now.den < 2 ^ 63 }
        ensures { OnOk result (AddsStateRow row.now low high self.old self.new) }
    {
        let shift = shift_of(row.den);
        let den = scaled_den(row.den, shift);
        let first = self.entries.len();
        push_scaled(&mut self.entries, &row.entries, shift)?;
        let end = self.entries.len();
        self.rows.push(LaidRow {
            low,
            high,
            divisor: FullDivisor::new(den),
            first,
            end,
        })?;
        Ok(())
    }

    /// The row of a state.
    #[inline]
    pub fn row(&self, s: u32) -> StateRow<'_>
        requires state { s < length self.now }
        ensures low { result.low ≡ (state_row_at self.now s).low }
        ensures high { result.high ≡ (state_row_at self.now s).high }
        ensures divisor { result.divisor.now ≡ (state_row_at self.now s).row.den }
        ensures entries { result.entries.now ≡ (state_row_at self.now s).row.entries }
    {
        let laid = &self.rows[s as usize];
        StateRow {
            low: laid.low,
            high: laid.high,
            divisor: &laid.divisor,
            entries: &self.entries[laid.first..laid.end],
        }
    }
}
