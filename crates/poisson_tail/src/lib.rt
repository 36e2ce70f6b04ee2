//! How many jumps of a uniformised chain must be looked at, and with which weights.
#![tactic(auto)]

mod layers;
mod lists;
mod load;
mod steps;
#[cfg(test)]
mod tests;

pub use layers::{MOST_LAYERS, horizon};
pub use lists::weights;
pub use load::Load;
