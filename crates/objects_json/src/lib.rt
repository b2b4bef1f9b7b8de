//! The objects that a pickle makes, as JSON Lines: a line for each object, one for each result, and a last one that says how the run ended.
#![tactic(auto)]

mod change;
mod kind;
mod laws;
mod object;
mod objects;

pub use laws::{object_lines_read_back, words_are_those_of_texts};
pub use object::{write_object, write_object_fields};
pub use objects::objects_lines;
