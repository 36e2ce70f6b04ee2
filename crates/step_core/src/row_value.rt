// The value of one row over a layer's words.

ghost use Rattle.std.specs.Prelude.{◌≡◌, ◌*◌, ◌/◌, ◌^◌, ◌<◌, ◌≤◌, All, length, slice_index, if◌then◌else◌, ◌&&◌, not};
ghost use Rattle.std.specs.List.{sum_by};
ghost use Rattle.std.specs.Int.{div_ceil};
ghost use Rattle.step_core.specs.SoundFrame.{IsSoundRow};

use crate::row::Row;
use round_out::{Divisor, Dot, Entry, ONE};

/// Where a state stands: whether it is of the goal, and whether it is live.
#[derive(Clone, Copy, Debug)]
pub struct Standing {
    pub is_goal: bool,
    pub is_live: bool,
}

impl Standing {
    // Whether the state's value is the quotient of its row.
    #[inline]
    fn needs_row(self) -> bool
        ensures { result ≡ (self.is_live && not self.is_goal) }
    {
        self.is_live && !self.is_goal
    }
}

/// The row's divisor, prepared for divisions: the last one, where it is the same.
#[inline]
pub fn divisor_of(row: &Row, last: Divisor) -> Divisor
    requires positive { 0 < row.now.den }
    requires fits { row.now.den < 2 ^ 63 }
    ensures { result ≡ row.now.den }
{
    if last.den() == row.den {
        last
    } else {
        Divisor::new(row.den)
    }
}

/// The row's value over the words, rounded down: 1 on the goal, and 0 where the state is neither
/// the goal nor live.
#[inline]
pub fn low_word(row: &Row, divisor: &Divisor, is_goal: bool, is_live: bool, words: &[u64]) -> u64
    requires row { IsSoundRow (length words.now) row.now }
    requires divisor { divisor.now ≡ row.now.den }
    requires words { All (λ w. w ≤ ONE) words.now }
    ensures value { result ≡ (if is_goal then ONE else (if is_live
        then sum_by (λ e. e.num * slice_index words.now e.to) row.now.entries / row.now.den else 0)) }
    ensures at_most_one { result ≤ ONE }
{
    if is_goal {
        ONE
    } else if is_live {
        row_floor(row, divisor, words)
    } else {
        0
    }
}

/// The row's value over the words, rounded up: 1 on the goal, and 0 where the state is neither the
/// goal nor live.
#[inline]
pub fn high_word(row: &Row, divisor: &Divisor, is_goal: bool, is_live: bool, words: &[u64]) -> u64
    requires row { IsSoundRow (length words.now) row.now }
    requires divisor { divisor.now ≡ row.now.den }
    requires words { All (λ w. w ≤ ONE) words.now }
    ensures value { result ≡ (if is_goal then ONE else (if is_live
        then div_ceil (sum_by (λ e. e.num * slice_index words.now e.to) row.now.entries) row.now.den else 0)) }
    ensures at_most_one { result ≤ ONE }
{
    if is_goal {
        ONE
    } else if is_live {
        row_ceil(row, divisor, words)
    } else {
        0
    }
}

/// `low_word` over the lower words and `high_word` over the upper ones, in one pass over the row's
/// entries where both values need them.
#[inline]
pub fn both_words(
    row: &Row,
    divisor: &Divisor,
    must: Standing,
    may: Standing,
    low: &[u64],
    high: &[u64],
) -> (u64, u64)
    requires low_targets { IsSoundRow (length low.now) row.now }
    requires high_targets { IsSoundRow (length high.now) row.now }
    requires divisor { divisor.now ≡ row.now.den }
    requires low_words { All (λ w. w ≤ ONE) low.now }
    requires high_words { All (λ w. w ≤ ONE) high.now }
    ensures low { result.0 ≡ (if must.is_goal then ONE else (if must.is_live
        then sum_by (λ e. e.num * slice_index low.now e.to) row.now.entries / row.now.den else 0)) }
    ensures high { result.1 ≡ (if may.is_goal then ONE else (if may.is_live
        then div_ceil (sum_by (λ e. e.num * slice_index high.now e.to) row.now.entries) row.now.den else 0)) }
    ensures low_at_most_one { result.0 ≤ ONE }
    ensures high_at_most_one { result.1 ≤ ONE }
{
    if must.needs_row() && may.needs_row() {
        return both_quotients(row, divisor, low, high);
    }
    (
        low_word(row, divisor, must.is_goal, must.is_live, low),
        high_word(row, divisor, may.is_goal, may.is_live, high),
    )
}

// The quotients of the row over the lower words, rounded down, and over the upper ones, rounded up.
#[inline]
fn both_quotients(row: &Row, divisor: &Divisor, low: &[u64], high: &[u64]) -> (u64, u64)
    requires low_targets { IsSoundRow (length low.now) row.now }
    requires high_targets { IsSoundRow (length high.now) row.now }
    requires divisor { divisor.now ≡ row.now.den }
    requires low_words { All (λ w. w ≤ ONE) low.now }
    requires high_words { All (λ w. w ≤ ONE) high.now }
    ensures low { result.0 ≡ sum_by (λ e. e.num * slice_index low.now e.to) row.now.entries / row.now.den }
    ensures high { result.1 ≡ div_ceil (sum_by (λ e. e.num * slice_index high.now e.to) row.now.entries) row.now.den }
    ensures low_at_most_one { result.0 ≤ ONE }
    ensures high_at_most_one { result.1 ≤ ONE }
{
    match row.entries.as_slice() {
        [only] => (low[only.to as usize], high[only.to as usize]),
        entries => {
            let (low, high) = both_dots(entries, low, high);
            (low.floor_by(divisor), high.ceil_by(divisor))
        }
    }
}

// The entries' numbers times their targets' words, added up: the lower ones and the upper ones.
#[inline]
fn both_dots(entries: &[Entry], low: &[u64], high: &[u64]) -> (Dot, Dot)
    requires low_targets { All (λ e. e.to < length low.now) entries.now }
    requires high_targets { All (λ e. e.to < length high.now) entries.now }
    requires fits { sum_by (λ e. e.num) entries.now < 2 ^ 63 }
    requires low_words { All (λ w. w ≤ ONE) low.now }
    requires high_words { All (λ w. w ≤ ONE) high.now }
    ensures low { result.0.products ≡ sum_by (λ e. e.num * slice_index low.now e.to) entries.now }
    ensures high { result.1.products ≡ sum_by (λ e. e.num * slice_index high.now e.to) entries.now }
    ensures low_numbers { result.0.numbers ≡ sum_by (λ e. e.num) entries.now }
    ensures high_numbers { result.1.numbers ≡ sum_by (λ e. e.num) entries.now }
{
    let mut low_dot = Dot::new();
    let mut high_dot = Dot::new();
    for entry in entries {
        low_dot.add(entry.num, low[entry.to as usize]);
        high_dot.add(entry.num, high[entry.to as usize]);
    }
    (low_dot, high_dot)
}

// The quotient of the row over the words, rounded down. A row of one entry leads surely to its
// target, and has the target's word.
#[inline]
fn row_floor(row: &Row, divisor: &Divisor, words: &[u64]) -> u64
    requires row { IsSoundRow (length words.now) row.now }
    requires divisor { divisor.now ≡ row.now.den }
    requires words { All (λ w. w ≤ ONE) words.now }
    ensures value { result ≡ sum_by (λ e. e.num * slice_index words.now e.to) row.now.entries / row.now.den }
    ensures at_most_one { result ≤ ONE }
{
    match row.entries.as_slice() {
        [only] => words[only.to as usize],
        entries => dot(entries, words).floor_by(divisor),
    }
}

// The quotient of the row over the words, rounded up. A row of one entry leads surely to its
// target, and has the target's word.
#[inline]
fn row_ceil(row: &Row, divisor: &Divisor, words: &[u64]) -> u64
    requires row { IsSoundRow (length words.now) row.now }
    requires divisor { divisor.now ≡ row.now.den }
    requires words { All (λ w. w ≤ ONE) words.now }
    ensures value { result ≡ div_ceil (sum_by (λ e. e.num * slice_index words.now e.to) row.now.entries) row.now.den }
    ensures at_most_one { result ≤ ONE }
{
    match row.entries.as_slice() {
        [only] => words[only.to as usize],
        entries => dot(entries, words).ceil_by(divisor),
    }
}

// The entries' numbers times their targets' words, added up.
#[inline]
fn dot(entries: &[Entry], words: &[u64]) -> Dot
    requires targets { All (λ e. e.to < length words.now) entries.now }
    requires fits { sum_by (λ e. e.num) entries.now < 2 ^ 63 }
    requires words { All (λ w. w ≤ ONE) words.now }
    ensures products { result.products ≡ sum_by (λ e. e.num * slice_index words.now e.to) entries.now }
    ensures numbers { result.numbers ≡ sum_by (λ e. e.num) entries.now }
{
    let mut dot = Dot::new();
    for entry in entries {
        dot.add(entry.num, words[entry.to as usize]);
    }
    dot
}
