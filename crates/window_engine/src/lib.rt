//! The brackets of all states of an until, by an engine that keeps two layers of words.
#![tactic(auto)]

mod brackets;
mod first_words;
mod run;
#[cfg(test)]
mod tests;

pub use brackets::window_brackets;
