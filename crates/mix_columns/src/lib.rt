//! The mix of a state's columns: the bracket that the words of its layers make.
#![tactic(auto)]

mod laws;
mod layer_weights;
mod mixer;
mod mixers;
mod quotients;
mod settled;
mod state_sums;
mod sums;
#[cfg(test)]
mod tests;
mod units;

pub use laws::{mix_rises, one_thread_contains, rest_shrinks};
pub use mixer::Mixer;
pub use mixers::Mixers;
pub use settled::settle;
