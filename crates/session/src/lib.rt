//! One command of the program, from the words to the bytes.
#![tactic(auto)]

mod formula_lines;
mod laws;
mod line_reply;
mod model_files;
mod reading;
mod replies;
mod status;
mod sure;
mod top;
mod worked_example;

pub use laws::{input_has_an_outcome, outcome_is_one};
pub use report::{ModelFault, Which};
pub use status::{Fault, Status};
pub use sure::serve_surely;
pub use top::serve;
pub use worked_example::serve_example;

#[cfg(test)]
mod tests;
