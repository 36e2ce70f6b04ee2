// Whole numbers.
ghost use Rattle.std.specs.Prelude.{◌+◌, ◌^◌, ◌<◌, min, SomeIff};
ghost use Rattle.text_lines.specs.WholeNumber.{IsWhole, whole_value};

/// The whole number that the word writes, or `limit + 1` where it is greater than `limit`, so that
/// a word of any length has an answer; nothing where the word is empty or has a byte that is no
/// digit. Leading zeros are allowed.
pub fn whole(word: &[u8], limit: u64) -> Option<u64>
    requires { limit < 2 ^ 63 }
    ensures { SomeIff result (IsWhole word.now) (min (whole_value word.now) (limit + 1)) }
{
    if word.is_empty() {
        return None;
    }
    let mut number = 0u64;
    for byte in word {
        let digit = char::from(*byte).to_digit(10)?;
        let longer = number.saturating_mul(10).saturating_add(u64::from(digit));
        number = longer.min(limit + 1);
    }
    Some(number)
}
