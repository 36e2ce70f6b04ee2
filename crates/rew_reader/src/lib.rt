//! The `.rew` file: the rewards of the states.
#![tactic(auto)]

mod entries;
mod entry;
mod laws;
mod rew;
mod rewards;
#[cfg(test)]
mod tests;

pub use laws::{rew_fault_is_one, rew_has_no_fault, rew_is_one, rew_or_fault};
pub use rew::read_rew;
