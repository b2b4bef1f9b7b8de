//! Listings: the lines of a pickle's opcodes, one for each, and the closing lines, which say why it ended. Nothing is imported or called.
//!
//! A line has the form of `pickletools.dis`. What is said of refused opcodes, of faults and of what is left is this project's own.
#![tactic(auto)]

mod arg_writer;
mod column;
mod highest;
mod line;
mod list;
mod note;
mod offset;
mod put;

pub use arg_writer::{ArgWriter, ShortArgs};
pub use list::{list_bytes, list_bytes_with, list_items, write_listing};
