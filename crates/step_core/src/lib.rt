//! Plans of an until over a jump chain: their types, when they are sound, and their rounded tables.
#![tactic(auto)]

mod applying;
mod blocks;
mod bracket;
mod draws;
mod event;
mod frame;
mod laws;
mod layout;
mod machine;
mod mix;
mod one_thread;
mod opening;
mod pass_notes;
mod plan;
mod plan_error;
mod row;
mod row_value;
mod sets;
mod tables;
mod watch;
mod weights;
mod words;

pub use blocks::BLOCK_STATES;
pub use bracket::Bracket;
pub use draws::{MOST_DRAWS, SPLIT_DRAWS};
pub use event::Event;
pub use frame::Frame;
pub use laws::{frame_rows_are_whole, good_machine_bounds, plan_tables_round, walks_are_found};
pub use layout::Layout;
pub use machine::Core;
pub use mix::Mix;
pub use one_thread::{plain_tables, set_layer};
pub use opening::words_at_start;
pub use plan::Plan;
pub use plan_error::PlanError;
pub use row::Row;
pub use sets::Sets;
pub use tables::Tables;
pub use watch::Watch;
pub use weights::Weights;
pub use words::Words;
