//! The states of a frame from which its goal can be reached.
#![tactic(auto)]

mod reach;
mod search;
mod sources;

pub use reach::can_reach;
