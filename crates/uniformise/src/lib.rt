//! Plans of untils over the uniformised chain of a model.
#![tactic(auto)]

mod bounded;
mod exit_rates;
mod jump_rows;
mod limits;
mod load_plan;
mod unbounded;
mod uniformised_frame;
mod uniformised_rows;

pub use bounded::time_plan;
pub use jump_rows::jump_row;
pub use limits::{MOST_WORDS, last_layer};
pub use load_plan::plan_of_load;
pub use unbounded::unbounded_plan;

#[cfg(test)]
mod tests;
