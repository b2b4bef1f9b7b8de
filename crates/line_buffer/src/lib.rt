//! A line of a text in a buffer of fixed size, so that it can be put between quotation marks before it goes on. It takes no memory, and a
//! line that is too long for it is not shown.
#![tactic(auto)]

mod buffer;

pub use buffer::LineBuffer;
