//! What the names and the texts of a pickle are to Python 3: the values of texts, by how their bytes are read, and what is imported for
//! the names of Python 2.
#![tactic(auto)]

mod coding;
mod old_names;
mod piece;
mod rows;
mod value;

pub use coding::{Coding, Piece};
pub use old_names::{NewNames, module_renamed, renamed};
pub use value::{Reading, is_plain_name, read, short_value, write_text, write_value};
