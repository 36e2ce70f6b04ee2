//! Exact quotients, rounded down and up, and the exact comparison of fractions.
#![tactic(auto)]

mod compare;
mod divisor;
mod dot;
mod entry;
mod quotient;
mod word;

pub use compare::cmp_frac;
pub use divisor::Divisor;
pub use dot::Dot;
pub use entry::Entry;
pub use quotient::{mul_div_ceil, mul_div_floor};
pub use word::ONE;
