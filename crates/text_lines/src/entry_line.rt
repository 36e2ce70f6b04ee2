// Entries, as their lines write them.
ghost use Rattle.std.specs.Prelude.{◌≡◌, ◌^◌, ◌<◌, ◌≤◌, map};
ghost use Rattle.decimal_text.specs.Scale.{greatest_decimals, scaled};
ghost use Rattle.text_lines.specs.EntryLines.{value_of};

/// What the line of an entry writes: for a key the number `digits / 10^decimals`.
#[derive(Clone, Copy)]
pub struct EntryLine<K> {
    /// The line's number.
    pub line: u64,
    pub digits: u64,
    pub decimals: u32,
    pub key: K,
}

/// The greatest number of decimals of the entries' numbers, 0 where there are none.
pub fn scale_of<K>(entries: &[EntryLine<K>]) -> u32
    ensures { result ≡ greatest_decimals (map value_of entries.now) }
{
    let mut most = 0;
    for entry in entries {
        if entry.decimals > most {
            most = entry.decimals;
        }
    }
    most
}

/// The entry's number in units of `10^-scale`.
pub fn value_at<K>(entry: &EntryLine<K>, scale: u32) -> u128
    requires decimals { entry.now.decimals ≤ scale }
    requires scale { scale ≤ 18 }
    ensures value { result ≡ scaled scale (value_of entry.now) }
    ensures small { result < 2 ^ 127 }
{
    u128::from(entry.digits) * 10u128.pow(scale - entry.decimals)
}
