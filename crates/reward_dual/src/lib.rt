//! Plans of untils with a bound on the reward, over the dual of a model's chain.
#![tactic(auto)]

mod deciding;
mod dual_rows;
mod lowest_terms;
mod refusals;
mod reward_plans;

pub use reward_plans::reward_plan;

#[cfg(test)]
mod tests;
