//! Whether a file passes a list, and the members of a file, as lines of JSON.
#![tactic(auto)]

mod answer;
mod fields;
mod judged;
mod laws;
mod line;
mod member;
mod members;
mod verdict;

pub use answer::{refuse_list_line, write_file_line, write_gate_line, write_named_line};
pub use laws::{lines_have_texts, verdict_lines_read_back};
pub use members::write_members_lines;
pub use verdict::write_closing;
