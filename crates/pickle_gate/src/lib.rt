//! A gate for one pickle: whether all that it imports and does with what it imports is in a list.
#![tactic(auto)]

mod judge;
mod laws;
mod line;
mod packed;
mod seen;
mod state;
mod verdict;
mod walk;

pub use laws::{one_verdict, verdicts_are_true};
pub use line::line_at;
pub use verdict::Verdict;
pub use walk::gate;
