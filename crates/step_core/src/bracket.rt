/// Two bounds of a probability, in units of `2^-62`.
#[derive(Clone, Copy, Debug, PartialEq, Eq)]
pub struct Bracket {
    pub lower: u64,
    pub upper: u64,
}
