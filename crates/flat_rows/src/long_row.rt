use crate::full_divisor::FullDivisor;
use crate::sides::Sides;

/// A row of any length and with any divisor: the place of its state, which words are a quotient of
/// it, its divisor, and which range of all such rows' entries are its own.
#[derive(Debug, Drop)]
pub(crate) struct LongRow {
    pub place: u32,
    pub sides: Sides,
    pub divisor: FullDivisor,
    pub first: usize,
    pub end: usize,
}
