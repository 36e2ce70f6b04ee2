// The words of one row over a layer.

ghost use Rattle.std.specs.Prelude.{◌≡◌, ◌*◌, ◌^◌, ◌<◌, ◌≤◌, All, length};
ghost use Rattle.std.specs.List.{sum_by};
ghost use Rattle.flat_rows.specs.RowWords.{low_products, high_products, row_words_of, IsFit};
ghost use Rattle.step_core.specs.WordPairs.{ArePairs};

use crate::full_divisor::FullDivisor;
use round_out::Entry;
use step_core::Words;

/// The entries' numbers times their targets' words, added up: the lower ones and the upper ones.
#[inline]
fn both_dots(entries: &[Entry], words: &[Words]) -> (u128, u128)
    requires targets { All (λ e. e.to < length words.now) entries.now }
    requires fits { sum_by (λ e. e.num) entries.now < 2 ^ 63 }
    requires words { ArePairs words.now }
    ensures low { result.0 ≡ low_products entries.now words.now }
    ensures high { result.1 ≡ high_products entries.now words.now }
    ensures low_at_most_one { result.0 ≤ sum_by (λ e. e.num) entries.now * 2 ^ 62 }
    ensures high_at_most_one { result.1 ≤ sum_by (λ e. e.num) entries.now * 2 ^ 62 }
{
    let mut low: u128 = 0;
    let mut high: u128 = 0;
    for entry in entries {
        let target = words[entry.to as usize];
        let num = u128::from(entry.num);
        low += num * u128::from(target.low);
        high += num * u128::from(target.high);
    }
    (low, high)
}

/// Both words of a row whose numbers add up to the divisor: the quotient over the lower words,
/// rounded down, and that over the upper ones, rounded up.
#[inline]
pub(crate) fn row_words(entries: &[Entry], divisor: &FullDivisor, words: &[Words]) -> Words
    requires fit { IsFit (length words.now) (record { den = divisor.now; entries = entries.now }) }
    requires words { ArePairs words.now }
    ensures value { result ≡ row_words_of (record { den = divisor.now; entries = entries.now }) words.now }
    ensures low_at_most_one { result.low ≤ 2 ^ 62 }
    ensures high_at_most_one { result.high ≤ 2 ^ 62 }
{
    let (low, high) = both_dots(entries, words);
    Words {
        low: divisor.floor(low),
        high: divisor.ceil(high),
    }
}
