//! Workers that race over one board and help one another, and a reader that watches a state beside
//! them.
#![tactic(auto)]

mod early;
mod enough;
mod fork;
mod hand;
mod race;
mod sure;
#[cfg(test)]
mod tests;
mod until_enough;
mod watching;
mod whole;
mod worker;

pub use enough::Enough;
pub use sure::finish;
pub use until_enough::{Stopped, run_until};
pub use whole::{RunEnd, run};
