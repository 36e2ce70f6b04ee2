//! The `.tra` file: a chain as the list of its transitions.
#![tactic(auto)]

mod body;
mod entry;
mod head;
mod laws;
mod rates;
mod repeats;
mod row;
#[cfg(test)]
mod tests;
mod tra;

pub use laws::{tra_fault_is_one, tra_has_no_fault, tra_is_one, tra_or_fault};
pub use tra::read_tra;
