//! What is answered where the source of an input is asked for: the pickle as statements of Python.
#![tactic(auto)]

mod written;

pub use written::write_source_of;
