// A step from layer to layer.

ghost use Rattle.std.specs.Prelude.{◌≡◌, ℕ, Bool, List, length};
ghost use Rattle.step_core.specs.FrameLists.{FrameLists};
ghost use Rattle.step_core.specs.WordPairs.{ArePairs};
ghost use Rattle.flat_rows.specs.NextWords.{IsNextPart, HasFixed, CanStep};
ghost use Rattle.flat_rows.specs.RowsOf.{AreRowsOf, AreFit};

use crate::flat_rows::FlatRows;
use crate::write_long_rows::write_long_rows;
use crate::write_one_rows::write_one_rows;
use crate::write_short_rows::write_short_rows;
use step_core::Words;

/// Writes the next layer's words of some states: the value of each row over the words of the layer
/// before.
///
/// `next` has a place for each of these states, and so other states can be stepped elsewhere. The
/// words of states that need no row are the same in each layer: they must stand in both already,
/// and stay.
pub fn next_words(flat: &FlatRows, words: &[Words], next: &mut [Words])
    requires fit { AreFit (length words.now) (length next.old) flat.now }
    requires words { ArePairs words.now }
    requires pairs { ArePairs next.old }
    ensures next { (frame : FrameLists) (reach : List Bool) (first : ℕ)
        → AreRowsOf frame.rows frame.sets reach first (length next.old) flat.now
        → CanStep frame reach first words.now next.old → IsNextPart frame.rows frame.sets first words.now next.new }
    ensures fixed { (frame : FrameLists) (reach : List Bool) (first : ℕ)
        → AreRowsOf frame.rows frame.sets reach first (length next.old) flat.now
        → CanStep frame reach first words.now next.old → HasFixed frame.sets reach first next.new }
    ensures pairs { ArePairs next.new }
    ensures same_places { length next.new ≡ length next.old }
{
    write_one_rows(&flat.ones, words, next);
    write_short_rows(&flat.shorts, words, next);
    write_long_rows(&flat.longs, words, next);
}

#[cfg(test)]
mod tests;
