//! The `.lab` file: the labels of the states.
#![tactic(auto)]

mod body;
mod declarations;
mod label_line;
mod laws;
mod names;
mod only;
mod reader;
#[cfg(test)]
mod tests;

pub use laws::{lab_fault_is_one, lab_has_no_fault, lab_is_one, lab_or_fault};
pub use reader::read_lab;
