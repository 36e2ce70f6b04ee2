//! The brackets that a pass reads of states.
#![tactic(auto)]

mod column;
mod laws;
mod states;
#[cfg(test)]
mod tests;

pub use column::{read, read_front};
pub use laws::better_notes_are_narrower;
pub use states::read_states;
