//! What is answered to two byte strings: whether the pickles in them make the same objects, or how they differ.
#![tactic(auto)]

mod line;
mod written;

pub use line::write_comparison_line;
pub use written::write_comparison;
