//! The board: shared words that racing threads make better, and the passes by which they know what
//! they found.
#![tactic(auto)]

mod board;
mod opening;
mod rows;
mod rule;
mod steps;
#[cfg(test)]
mod tests;

pub use board::{Board, Pass};
