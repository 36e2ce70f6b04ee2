use round_out::Entry;
use std::marker::Model;

/// The jumps from one state: to each entry's target with the entry's number over `den`.
///
/// In a sound row the targets ascend, and the numbers are positive and add up to `den`, which is
/// below `2^63`. Contracts see the divisor and the list of entries.
#[derive(Debug, Drop)]
pub struct Row {
    pub den: u64,
    pub entries: Vec<Entry>,
}

impl Model for Row {
    ghost use Rattle.step_core.specs.FrameLists.{RowLists};

    ghost Value = { RowLists };

    ghost view = { λ r. record { den = r.den; entries = r.entries.items } };
}
