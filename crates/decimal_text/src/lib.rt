//! Decimal numbers and their texts.
#![tactic(auto)]

mod decimal;
mod digits;
mod exponent;
mod laws;
mod mantissa;
mod number;
mod number_fault;
mod powers;
mod significand;
mod text;

pub use decimal::Decimal;
pub use laws::{a_word_has_one_value, each_number_has_a_value, normal_form_is_unique};
pub use number::read;
pub use number_fault::NumberFault;
pub use text::{print, write12};
