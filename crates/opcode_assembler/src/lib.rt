//! The bytes of opcodes that stand in a text, a line for each, as a listing prints them.
#![tactic(auto)]

mod argument;
mod assembly;
mod buffer;
mod canonical;
mod digits;
mod fault;
mod line;
mod long;
mod number;
mod scan;
mod text;
mod words;

pub use assembly::assemble;
pub use canonical::is_canonical;
pub use fault::{Reason, Refusal};
