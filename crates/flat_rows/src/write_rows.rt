// The words of many rows of one length, each written to the place of its state.

ghost use Rattle.std.specs.Prelude.{length, map};
ghost use Rattle.flat_rows.specs.Laid.{short_row};
ghost use Rattle.flat_rows.specs.RowsOf.{AreFit};
ghost use Rattle.flat_rows.specs.Written.{AreWritten};
ghost use Rattle.step_core.specs.WordPairs.{ArePairs};

use crate::flat_row::FlatRow;
use crate::full_divisor::FullDivisor;
use crate::row_words::row_words;
use step_core::Words;

/// Writes the words of each row to its place.
pub(crate) fn write_rows<const N: usize>(
    rows: &[FlatRow<N>],
    divisor: &FullDivisor,
    words: &[Words],
    next: &mut [Words],
)
    requires fit { AreFit (length words.now) (length next.old) (map (short_row divisor.now) rows.now) }
    requires words { ArePairs words.now }
    requires pairs { ArePairs next.old }
    ensures written { AreWritten words.now (map (short_row divisor.now) rows.now) next.old next.new }
    ensures pairs { ArePairs next.new }
{
    for row in rows {
        next[row.place as usize] = row_words(&row.entries, divisor, words);
    }
}
