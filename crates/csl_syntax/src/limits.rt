// The limits of a formula.

/// The greatest number of bytes of a formula's line.
pub const MOST_BYTES: usize = 4_096;

/// The greatest number of negations, parentheses and probability operators that are nested.
pub const MOST_NESTED: u32 = 64;
