/// The word that stands for 1: words are probabilities in units of `2^-62`.
pub const ONE: u64 = 1 << 62;
