// The rates at one scale, and their sums.
ghost use Rattle.std.specs.Prelude.{◌≡◌, ◌<◌, ◌≤◌, All, IfOk, MatchOption};
ghost use Rattle.decimal_text.specs.Scale.{scaled};
ghost use Rattle.text_lines.specs.EntryLines.{value_of, entries_of};
ghost use Rattle.tra_reader.specs.Pairs.{pair_of};
ghost use Rattle.tra_reader.specs.Rates.{IsFirstLarge};
ghost use Rattle.tra_reader.specs.TraText.{AreWithin, chain_rates};

use crate::entry::Pair;
use model_core::{AMOUNT_LIMIT, Rate};
use std::alloc::{AllocError, Global};
use text_lines::{EntryLine, value_at};

/// The place of the first entry at which the rates out of its state add up to `2^63` or more.
pub(crate) fn first_large(
    alloc: Global,
    entries: &[EntryLine<Pair>],
    n: u32,
    scale: u32,
) -> Result<Option<usize>, AllocError>
    requires states { All (λ e. e.key.from < n) entries.now }
    requires decimals { All (λ e. e.decimals ≤ scale) entries.now }
    requires scale { scale ≤ 18 }
    ensures { IfOk result
        (λ found. MatchOption found (AreWithin scale (entries_of pair_of entries.now)) (IsFirstLarge scale entries.now)) }
{
    let mut sums = vec![in alloc; 0u64; n as usize]?;
    for (place, entry) in entries.iter().enumerate() {
        let from = usize::from(entry.key.from);
        let sum = u128::from(sums[from]) + value_at(entry, scale);
        if sum >= u128::from(AMOUNT_LIMIT) {
            return Ok(Some(place));
        }
        sums[from] = sum as u64;
    }
    Ok(None)
}

/// The transitions whose rates are not 0, at the scale.
pub(crate) fn rates_of(
    alloc: Global,
    entries: &[EntryLine<Pair>],
    scale: u32,
) -> Result<Vec<Rate>, AllocError>
    requires decimals { All (λ e. e.decimals ≤ scale) entries.now }
    requires scale { scale ≤ 18 }
    requires fits { All (λ e. scaled scale (value_of e) < AMOUNT_LIMIT) entries.now }
    ensures { IfOk result (λ rates. rates.items ≡ chain_rates scale (entries_of pair_of entries.now)) }
{
    let mut rates = Vec::with_capacity(alloc, entries.len())?;
    for entry in entries {
        let rate = value_at(entry, scale);
        if rate > 0 {
            rates.push(Rate {
                from: u32::from(entry.key.from),
                to: u32::from(entry.key.to),
                rate: rate as u64,
            })?;
        }
    }
    Ok(rates)
}
