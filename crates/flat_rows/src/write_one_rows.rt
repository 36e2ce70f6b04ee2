// The words of rows of one entry, which are those of their targets.

ghost use Rattle.std.specs.Prelude.{length, map};
ghost use Rattle.flat_rows.specs.Laid.{sure_row};
ghost use Rattle.flat_rows.specs.RowsOf.{AreFit};
ghost use Rattle.flat_rows.specs.Written.{AreWritten};
ghost use Rattle.step_core.specs.WordPairs.{ArePairs};

use crate::one_row::OneRow;
use step_core::Words;

/// Writes the words of each row's target to its place.
pub(crate) fn write_one_rows(rows: &[OneRow], words: &[Words], next: &mut [Words])
    requires fit { AreFit (length words.now) (length next.old) (map sure_row rows.now) }
    requires words { ArePairs words.now }
    requires pairs { ArePairs next.old }
    ensures written { AreWritten words.now (map sure_row rows.now) next.old next.new }
    ensures pairs { ArePairs next.new }
{
    for row in rows {
        next[row.place as usize] = words[row.to as usize];
    }
}
