//! A continuous-time Markov chain with labels and perhaps rewards, as plain lists.
#![tactic(auto)]

mod lab;
mod laws;
mod limits;
mod model;
mod rate;
mod rew;
#[cfg(test)]
mod tests;
mod tra;

pub use lab::Lab;
pub use laws::{exit_rate_is_exit_sum, order_makes_no_other_chain, rate_into_is_row_sum};
pub use limits::{AMOUNT_LIMIT, MOST_LABELS, MOST_STATES, MOST_TRANSITIONS};
pub use model::Model;
pub use rate::Rate;
pub use rew::Rew;
pub use tra::Tra;
