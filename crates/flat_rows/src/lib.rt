//! One step of a layer over flat rows: rows side by side, and both words of a state side by side.
#![tactic(auto)]

mod flat_row;
mod flat_rows;
mod flattening;
mod full_divisor;
mod laid_row;
mod long_row;
mod long_rows;
mod one_row;
mod row_words;
mod scale;
mod short_rows;
mod sides;
mod state_rows;
mod step;
mod write_long_rows;
mod write_one_rows;
mod write_rows;
mod write_short_rows;

pub use flat_rows::FlatRows;
pub use flattening::flatten;
pub use full_divisor::FullDivisor;
pub use state_rows::{StateRow, StateRows};
pub use step::next_words;
