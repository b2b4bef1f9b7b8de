//! The Python source of a pickle as text: the expression of each object, and the statement of each thing that an opcode does. How literals are
//! spelled, whoever writes the source says.
//!
//! Nothing is imported or called.
#![tactic(auto)]

mod expression;
mod held;
mod import;
mod literals;
mod name;
mod reach;
mod statement;

pub use expression::{ByName, Say, Within};
pub use literals::Literals;
pub use statement::write_source;
