//! One state of a layer, or one block: its words become as good as the layer below lets them be, and
//! a block that is final is sealed.
#![tactic(auto)]

mod block;
mod layer;
mod products;
mod quotients;
mod state;
#[cfg(test)]
mod tests;
mod values;

pub use block::{finish_block, tighten_block};
pub use state::tighten;
