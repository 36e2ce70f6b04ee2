// How often passes draw tickets.

/// How often all passes of a board draw, together: no ticket is as great.
pub const MOST_DRAWS: u64 = 2_147_483_648;

/// How many of its draws a pass gives to one that is split off, if it has so many.
pub const SPLIT_DRAWS: u64 = 16_777_216;
