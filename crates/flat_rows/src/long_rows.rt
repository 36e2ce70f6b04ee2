ghost use Rattle.std.specs.Prelude.{◌≡◌, ◌*◌, ◌^◌, ◌<◌, ◌≤◌, [], ◌∷◌, ◌++◌, All, OnOk};
ghost use Rattle.flat_rows.specs.Fractions.{scaled_entries};

use crate::full_divisor::FullDivisor;
use crate::long_row::LongRow;
use crate::scale::push_scaled;
use crate::sides::Sides;
use round_out::Entry;
use std::alloc::{AllocError, Global};
use std::marker::Model;

/// Rows that have no list of their length: long ones, those with a divisor of their own, and those
/// of which only one word is a quotient. All their entries lie side by side.
///
/// Contracts see the list of rows.
#[derive(Debug, Drop)]
pub(crate) struct LongRows {
    pub rows: Vec<LongRow>,
    pub entries: Vec<Entry>,
}

impl Model for LongRows {
    ghost use Rattle.std.specs.Prelude.{List, All, map, length};
    ghost use Rattle.flat_rows.specs.Laid.{long_row, IsInside};
    ghost use Rattle.flat_rows.specs.PlacedRow.{PlacedRow};

    ghost Value = { List PlacedRow };

    ghost view = { λ l. map (long_row l.entries.items) l.rows.items };

    ghost invariant = { λ l. All (IsInside (length l.entries.items)) l.rows.items };
}

impl LongRows {
    /// No row yet.
    pub fn new(alloc: Global) -> LongRows
        ensures { result ≡ [] }
    {
        LongRows {
            rows: Vec::new(alloc),
            entries: Vec::new(alloc),
        }
    }

    /// Adds the row of the place for its sides, its numbers moved by the shift.
    pub fn push(
        &mut self,
        place: u32,
        den: u64,
        entries: &[Entry],
        shift: u32,
        sides: Sides,
    ) -> Result<(), AllocError>
        requires full { 2 ^ 62 ≤ den }
        requires full_fits { den < 2 ^ 63 }
        requires few { shift ≤ 62 }
        requires fits { All (λ e. e.num * 2 ^ shift < 2 ^ 64) entries.now }
        ensures { OnOk result (self.new ≡ self.old ++ record {
          place = place;
          row = record { den = den; entries = scaled_entries (2 ^ shift) entries.now };
          sides = sides;
        } ∷ []) }
    {
        let first = self.entries.len();
        push_scaled(&mut self.entries, entries, shift)?;
        let end = self.entries.len();
        self.rows.push(LongRow {
            place,
            sides,
            divisor: FullDivisor::new(den),
            first,
            end,
        })?;
        Ok(())
    }
}
