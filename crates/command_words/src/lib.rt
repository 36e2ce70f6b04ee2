//! The words of the command line, and the command that they are.
#![tactic(auto)]

mod command;
mod flag;
mod laws;
mod matches;
mod place;
mod reading;
mod scan;
mod setting;

pub use command::{Command, Kind, Options, WordsFault};
pub use laws::{
    flag_stands_anywhere, options_are_in_range, other_words_are_refused,
    words_are_a_command_or_not, words_are_read_one_way, words_say_one_command,
};
pub use reading::read_words;
