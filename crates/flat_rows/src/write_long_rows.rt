// The words of rows of any length and with any divisor, each written to the place of its state.

ghost use Rattle.std.specs.Prelude.{◌≡◌, ◌≤◌, ◌^◌, All, length, map};
ghost use Rattle.flat_rows.specs.Laid.{long_row, IsInside};
ghost use Rattle.flat_rows.specs.RowsOf.{AreFit};
ghost use Rattle.flat_rows.specs.SideWords.{side_words};
ghost use Rattle.flat_rows.specs.Written.{AreWritten};
ghost use Rattle.step_core.specs.WordPairs.{ArePairs};

use crate::long_row::LongRow;
use crate::long_rows::LongRows;
use crate::row_words::row_words;
use crate::sides::Sides;
use round_out::{Entry, ONE};
use step_core::Words;

/// The words of a state, of which only the sides are those of its row.
#[inline]
fn on_sides(sides: Sides, words: Words) -> Words
    requires low { words.low ≤ 2 ^ 62 }
    requires high { words.high ≤ 2 ^ 62 }
    ensures value { result ≡ side_words sides words }
    ensures low_at_most_one { result.low ≤ 2 ^ 62 }
    ensures high_at_most_one { result.high ≤ 2 ^ 62 }
{
    match sides {
        Sides::Both => words,
        Sides::Low => Words {
            low: words.low,
            high: ONE,
        },
        Sides::High => Words {
            low: 0,
            high: words.high,
        },
    }
}

/// Writes the words of each row to its place.
pub(crate) fn write_long_rows(longs: &LongRows, words: &[Words], next: &mut [Words])
    requires fit { AreFit (length words.now) (length next.old) longs.now }
    requires words { ArePairs words.now }
    requires pairs { ArePairs next.old }
    ensures written { AreWritten words.now longs.now next.old next.new }
    ensures pairs { ArePairs next.new }
{
    write_each(&longs.rows, &longs.entries, words, next);
}

// Writes the words of each row, whose entries are a range of all of them, to its place.
fn write_each(rows: &[LongRow], entries: &[Entry], words: &[Words], next: &mut [Words])
    requires inside { All (IsInside (length entries.now)) rows.now }
    requires fit { AreFit (length words.now) (length next.old) (map (long_row entries.now) rows.now) }
    requires words { ArePairs words.now }
    requires pairs { ArePairs next.old }
    ensures written { AreWritten words.now (map (long_row entries.now) rows.now) next.old next.new }
    ensures pairs { ArePairs next.new }
{
    for row in rows {
        let quotients = row_words(&entries[row.first..row.end], &row.divisor, words);
        next[row.place as usize] = on_sides(row.sides, quotients);
    }
}
