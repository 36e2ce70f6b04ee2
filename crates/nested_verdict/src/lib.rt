//! Answers to formulas over three values: verdicts and brackets of each state, of formulas nested at
//! will.
#![tactic(auto)]

mod check_fault;
mod checking;
mod next_states;
mod operator_answers;
mod state_answer;
mod threshold;
mod until_brackets;
mod until_plan;
mod until_states;
mod verdict_lists;

pub use check_fault::CheckFault;
pub use checking::check;

#[cfg(test)]
mod tests;
