// The words of rows of 2 to 8 entries that share a divisor.

ghost use Rattle.std.specs.Prelude.{length};
ghost use Rattle.flat_rows.specs.RowsOf.{AreFit};
ghost use Rattle.flat_rows.specs.Written.{AreWritten};
ghost use Rattle.step_core.specs.WordPairs.{ArePairs};

use crate::short_rows::ShortRows;
use crate::write_rows::write_rows;
use step_core::Words;

/// Writes the words of each row to its place, length after length.
pub(crate) fn write_short_rows(rows: &ShortRows, words: &[Words], next: &mut [Words])
    requires fit { AreFit (length words.now) (length next.old) rows.now.rows }
    requires words { ArePairs words.now }
    requires pairs { ArePairs next.old }
    ensures written { AreWritten words.now rows.now.rows next.old next.new }
    ensures pairs { ArePairs next.new }
{
    write_rows(&rows.twos, &rows.divisor, words, next);
    write_rows(&rows.threes, &rows.divisor, words, next);
    write_rows(&rows.fours, &rows.divisor, words, next);
    write_rows(&rows.fives, &rows.divisor, words, next);
    write_rows(&rows.sixes, &rows.divisor, words, next);
    write_rows(&rows.sevens, &rows.divisor, words, next);
    write_rows(&rows.eights, &rows.divisor, words, next);
}
