//! The lines of a text, the words of a line, whole numbers and names, the entries that lines write,
//! and what can be wrong with a file that is made of them.
#![tactic(auto)]

mod entry_line;
mod fault;
mod filled;
mod laws;
mod line;
mod name;
#[cfg(test)]
mod tests;
mod whole_number;
mod word;

pub use entry_line::{EntryLine, scale_of, value_at};
pub use fault::{FileFault, FileWhat, ReadFault};
pub use filled::{next_filled, two_words};
pub use laws::{
    blank_line_has_blanks_alone, line_has_its_words, line_has_no_other_words, text_has_its_lines,
    text_has_its_word_lines, text_has_no_other_lines, text_has_no_other_word_lines,
};
pub use line::{Line, LineIter, end_line, lines};
pub use name::{Name, is_name};
pub use whole_number::whole;
pub use word::{Word, WordIter, words};
