ghost use Rattle.std.specs.Prelude.{◌≡◌, ◌*◌, ◌^◌, ◌<◌, ◌≤◌, [], All, OnOk};
ghost use Rattle.std.specs.List.{sum_by};
ghost use Rattle.flat_rows.specs.AddedRow.{AddsRow};
ghost use Rattle.flat_rows.specs.Fractions.{scaled_entries};
ghost use Rattle.flat_rows.specs.declared.sides.Sides.TheVariants.{Both};

use crate::long_rows::LongRows;
use crate::one_row::OneRow;
use crate::scale::{scaled_den, shift_of};
use crate::short_rows::{MOST_ENTRIES, ShortRows};
use crate::sides::Sides;
use round_out::Entry;
use std::alloc::{AllocError, Global};
use std::marker::Model;
use step_core::Row;

/// The rows of some states, made ready for step after step: each is multiplied by a number of its
/// own, so that its divisor has 63 bits.
///
/// Contracts see the list of rows.
#[derive(Debug, Drop)]
pub struct FlatRows {
    // Rows of one entry, of any divisor: they need no quotient.
    pub(crate) ones: Vec<OneRow>,
    // Short rows of one divisor.
    pub(crate) shorts: ShortRows,
    // All others.
    pub(crate) longs: LongRows,
}

impl Model for FlatRows {
    ghost use Rattle.std.specs.Prelude.{List, map, ◌++◌};
    ghost use Rattle.flat_rows.specs.Laid.{sure_row};
    ghost use Rattle.flat_rows.specs.PlacedRow.{PlacedRow};

    ghost Value = { List PlacedRow };

    ghost view = { λ f. map sure_row f.ones.items ++ (f.shorts.rows ++ f.longs) };
}

impl FlatRows {
    /// No row yet. Rows with the given divisor are the fastest.
    pub(crate) fn new(alloc: Global, den: u64) -> FlatRows
        requires positive { 0 < den }
        requires fits { den < 2 ^ 63 }
        ensures { result ≡ [] }
    {
        let full = scaled_den(den, shift_of(den));
        FlatRows {
            ones: Vec::new(alloc),
            shorts: ShortRows::new(alloc, full),
            longs: LongRows::new(alloc),
        }
    }

    /// Adds the row of the place for its sides.
    pub(crate) fn push(&mut self, place: u32, row: &Row, sides: Sides) -> Result<(), AllocError>
        requires whole { sum_by (λ e. e.num) row.now.entries ≡ row.now.den }
        requires positive { 0 < row.now.den }
        requires fits { row.now.den < 2 ^ 63 }
        ensures { OnOk result (AddsRow place row.now sides self.old self.new) }
    {
        let shift = shift_of(row.den);
        let den = scaled_den(row.den, shift);
        match sides {
            Sides::Both => self.push_both(place, den, &row.entries, shift)?,
            Sides::Low | Sides::High => self.longs.push(place, den, &row.entries, shift, sides)?,
        }
        Ok(())
    }

    // Adds the row of the place for both sides.
    fn push_both(
        &mut self,
        place: u32,
        den: u64,
        entries: &[Entry],
        shift: u32,
    ) -> Result<(), AllocError>
        requires full { 2 ^ 62 ≤ den }
        requires full_fits { den < 2 ^ 63 }
        requires few { shift ≤ 62 }
        requires fits { All (λ e. e.num * 2 ^ shift < 2 ^ 64) entries.now }
        requires whole { sum_by (λ e. e.num) entries.now * 2 ^ shift ≡ den }
        ensures { OnOk result (AddsRow place (record { den = den; entries = scaled_entries (2 ^ shift) entries.now })
            Both self.old self.new) }
    {
        let is_short = entries.len() >= 2 && entries.len() <= MOST_ENTRIES;
        if let [only] = entries {
            self.ones.push(OneRow { place, to: only.to })?;
        } else if is_short && den == self.shorts.den() {
            self.shorts.push(place, entries, shift)?;
        } else {
            self.longs.push(place, den, entries, shift, Sides::Both)?;
        }
        Ok(())
    }
}
