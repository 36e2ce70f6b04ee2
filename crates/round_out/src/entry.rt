/// One jump of a row: to the state `to`, counted from 0, with the probability `num` over the row's
/// divisor.
#[derive(Clone, Copy, Debug, PartialEq, Eq)]
pub struct Entry {
    pub to: u32,
    pub num: u64,
}
