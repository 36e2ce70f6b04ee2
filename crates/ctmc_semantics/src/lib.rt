//! The definitions on which every verdict stands, their laws, and plain slow programs that compute them.
#![tactic(auto)]

mod laws;
mod plain;

pub use laws::brackets::{bracket_contains, bracket_is_narrow, last_contains};
pub use laws::contains::{
    contains_reads_the_number, enclosing_contains, rounded_out_encloses, settled_encloses,
};
pub use laws::jumps::{
    jump_values_are_of_the_rows, jump_values_grow, jump_values_rise, uniformised_is_stochastic,
    weights_are_rows,
};
pub use laws::mix::{mix_encloses, mix_is_narrow, mix_reads, mix_rises};
pub use laws::poisson::{averages_are_of_the_rows, averages_grow, averages_rise, tail_is_small};
pub use laws::tables::{high_table_rounds, low_table_rounds, starts_are_kept};
pub use laws::verdicts::{
    constant_meets, failing_is_not_meeting, probability_is_decided, undecided_is_inside,
    until_is_decided,
};
pub use laws::weights::{mode_weighs_one, weights_are_near, weights_enclose};
pub use laws::{
    comparisons_are_complements, fractions_are_ordered, next_is_at_most_one, threshold_is_decided,
    threshold_is_tested,
};
pub use plain::average::{plain_until_average, plain_weight_sum};
pub use plain::column::MOST_STATES;
pub use plain::fraction::PlainFraction;
pub use plain::jump::plain_jump_value;
pub use plain::next::plain_next;
pub use plain::rates::{plain_exit_rate, plain_rate_into};
pub use plain::uniform::{plain_uniform_rate, plain_weight};
