//! What is answered to a text of opcodes: the bytes that it is assembled to, or the first line that gives none.
#![tactic(auto)]

mod written;

pub use written::write_assembled;
