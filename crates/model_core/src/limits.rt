// The limits of a model.

/// The greatest number of states.
pub const MOST_STATES: u32 = 65_536;

/// The greatest number of transitions that a file may announce.
pub const MOST_TRANSITIONS: u64 = 1_000_000;

/// The greatest number of labels.
pub const MOST_LABELS: usize = 64;

/// What each exit rate and each reward is below, in units of `10^-scale`.
pub const AMOUNT_LIMIT: u64 = 1 << 63;
