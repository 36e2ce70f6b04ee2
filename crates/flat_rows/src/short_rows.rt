ghost use Rattle.std.specs.Prelude.{◌≡◌, ◌*◌, ◌^◌, ◌<◌, ◌≤◌, [], All, OnOk, length};
ghost use Rattle.flat_rows.specs.AddedRow.{InsertsRow};
ghost use Rattle.flat_rows.specs.Fractions.{scaled_entries};
ghost use Rattle.flat_rows.specs.declared.sides.Sides.TheVariants.{Both};

use crate::flat_row::FlatRow;
use crate::full_divisor::FullDivisor;
use round_out::Entry;
use std::alloc::{AllocError, Global};
use std::marker::Model;

/// How many entries a short row has at most.
pub(crate) const MOST_ENTRIES: usize = 8;

/// Rows of 2 to 8 entries that share a divisor, those of one length side by side, so that a step
/// over them has no branch that is hard to foretell.
///
/// Contracts see the divisor and the list of rows.
#[derive(Debug, Drop)]
pub(crate) struct ShortRows {
    pub divisor: FullDivisor,
    pub twos: Vec<FlatRow<2>>,
    pub threes: Vec<FlatRow<3>>,
    pub fours: Vec<FlatRow<4>>,
    pub fives: Vec<FlatRow<5>>,
    pub sixes: Vec<FlatRow<6>>,
    pub sevens: Vec<FlatRow<7>>,
    pub eights: Vec<FlatRow<8>>,
}

impl Model for ShortRows {
    ghost use Rattle.std.specs.Prelude.{map, ◌++◌};
    ghost use Rattle.flat_rows.specs.Laid.{short_row};
    ghost use Rattle.flat_rows.specs.ShortLists.{ShortLists};

    ghost Value = { ShortLists };

    ghost view = { λ s. record {
      den = s.divisor;
      rows = map (short_row s.divisor) s.twos.items
          ++ (map (short_row s.divisor) s.threes.items
          ++ (map (short_row s.divisor) s.fours.items
          ++ (map (short_row s.divisor) s.fives.items
          ++ (map (short_row s.divisor) s.sixes.items
          ++ (map (short_row s.divisor) s.sevens.items ++ map (short_row s.divisor) s.eights.items)))));
    } };
}

impl ShortRows {
    /// No row yet, and the divisor of those that come.
    pub fn new(alloc: Global, den: u64) -> ShortRows
        requires full { 2 ^ 62 ≤ den }
        requires fits { den < 2 ^ 63 }
        ensures { result ≡ record { den = den; rows = [] } }
    {
        ShortRows {
            divisor: FullDivisor::new(den),
            twos: Vec::new(alloc),
            threes: Vec::new(alloc),
            fours: Vec::new(alloc),
            fives: Vec::new(alloc),
            sixes: Vec::new(alloc),
            sevens: Vec::new(alloc),
            eights: Vec::new(alloc),
        }
    }

    /// The divisor that the rows share.
    pub fn den(&self) -> u64
        ensures { result ≡ self.now.den }
    {
        self.divisor.den()
    }

    /// Adds the row of the place for both sides, its numbers moved by the shift.
    pub fn push(&mut self, place: u32, entries: &[Entry], shift: u32) -> Result<(), AllocError>
        requires some { 2 ≤ length entries.now }
        requires short { length entries.now ≤ MOST_ENTRIES }
        requires few { shift ≤ 62 }
        requires fits { All (λ e. e.num * 2 ^ shift < 2 ^ 64) entries.now }
        ensures { OnOk result (InsertsRow (record {
          place = place;
          row = record { den = self.old.den; entries = scaled_entries (2 ^ shift) entries.now };
          sides = Both;
        }) self.old.rows self.new.rows) }
    {
        match entries.len() {
            2 => self.twos.push(FlatRow::scaled(place, entries, shift))?,
            3 => self.threes.push(FlatRow::scaled(place, entries, shift))?,
            4 => self.fours.push(FlatRow::scaled(place, entries, shift))?,
            5 => self.fives.push(FlatRow::scaled(place, entries, shift))?,
            6 => self.sixes.push(FlatRow::scaled(place, entries, shift))?,
            7 => self.sevens.push(FlatRow::scaled(place, entries, shift))?,
            _ => self.eights.push(FlatRow::scaled(place, entries, shift))?,
        }
        Ok(())
    }
}
