//! What is said of an input as JSON Lines, whole or up to a stop, for the program and the library.
#![tactic(auto)]

mod calls;
mod form;
mod lines;
mod reach;

pub use calls::write_calls_lines;
pub use lines::{Lines, write_lines};
