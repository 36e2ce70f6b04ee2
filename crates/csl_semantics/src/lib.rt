//! What the formulas of the continuous stochastic logic mean over a chain with labels.
#![tactic(auto)]

mod laws;
mod worked;

pub use laws::{
    formula_has_one_meaning, formula_without_until_is_decided, kinds_of_formulas,
    meaning_is_never_missing, operators_read_their_operands,
};
pub use worked::{worked_formulas, worked_meanings};
