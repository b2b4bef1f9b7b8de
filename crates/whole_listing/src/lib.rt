//! The listing that is assembled to the bytes that it shows.
//!
//! The short text of an argument may stand for several spellings of it: a line of digits with zeros in front, a long number that is padded. Of such
//! an argument this listing has all bytes, as `hex:` and hexadecimal digits. All else is as in the listing that people read.
#![tactic(auto)]

mod listing;
mod whole_args;

pub use listing::list_whole;
