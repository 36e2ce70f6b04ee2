// The blocks of a layer.

/// The number of states of a block, but for the last one of a layer, which may have fewer.
pub const BLOCK_STATES: u32 = 64;
