use crate::full_divisor::FullDivisor;

/// A state's row: which words of the state are a quotient of it, its divisor, and which range of all
/// states' entries are its own.
#[derive(Debug, Drop)]
pub(crate) struct LaidRow {
    pub low: bool,
    pub high: bool,
    pub divisor: FullDivisor,
    pub first: usize,
    pub end: usize,
}
