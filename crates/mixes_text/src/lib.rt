//! What loaders may take that mix ways to do with frames, as lines behind those of `calls`. Nothing is imported or called.
#![tactic(auto)]

mod people;
mod text;
mod whole;
mod words;

pub use whole::calls;
pub use words::MixWorder;
