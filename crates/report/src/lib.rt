//! What is printed: the answer to a formula, and the lines of what isn't answered.
#![tactic(auto)]

mod answer;
mod answer_lines;
mod answer_writer;
mod fault_line;
mod model_fault;
mod refusal;
mod refusal_text;

pub use answer::{Answer, Printed, Shown, Verdict};
pub use answer_writer::write_answer;
pub use fault_line::write_fault;
pub use model_fault::{ModelFault, Which};
pub use refusal::write_refusal;
pub use refusal_text::{put_formula_fault, put_plan_refusal, put_refused};

#[cfg(test)]
mod tests;
