//! The table of opcodes, as JSON Lines for programs and as a text for people.
#![tactic(auto)]

mod form;
mod laws;
mod lines;
mod plain;
mod row;
mod words;

pub use laws::entry_lines_read_back;
pub use lines::write_opcodes;
pub use plain::write_sentences;
